// The part of a reply from its status on: the status, two bytes of the sequence number, and what follows them.
#![tactic(auto)]

ghost use Rattle.std.specs.Prelude.{◌≡◌, ◌+◌, drop};
ghost use Rattle.reply_part.specs.Part.{of_raw, of_reply, data_of};

// The bytes from a place on.
fn from(bytes: &[u8], at: usize) -> &[u8]
    ensures { result.now ≡ drop at bytes.now }
{
    &bytes[at.min(bytes.len())..]
}

// The part of a raw reply, which has its encapsulation in front.
pub fn of_raw(raw: &[u8]) -> &[u8]
    ensures { result.now ≡ of_raw raw.now }
{
    from(raw, 58)
}

// The part of a reply that begins with the requester's id, whose first byte counts the id's bytes.
pub fn of_reply(reply: &[u8]) -> &[u8]
    ensures { result.now ≡ of_reply reply.now }
{
    match reply {
        [] => reply,
        [n, ..] => from(reply, usize::from(*n) + 1),
    }
}

// What follows the sequence number: data, or an extended status.
pub fn data(part: &[u8]) -> &[u8]
    ensures { result.now ≡ data_of part.now }
{
    from(part, 3)
}
