// The file directory of a processor, client side: its size.
#![tactic(auto)]

ghost use Rattle.std.specs.Prelude.{◌≡◌};
ghost use Rattle.directory_size.specs.Size.{size_in, size_of, reply_size};

use base::Refusal;
use directory_sys0::Sys0Info;

// The size in a reply's data, less what the processor adds to it: it may be negative.
#[tactic(auto, unfolding(crate::specs::Size::size_in))]
fn size_in(bytes: &[u8], size_const: u16) -> Result<i32, Refusal>
    ensures { result ≡ size_in bytes.now size_const }
{
    if bytes.len() < 2 {
        return Err(Refusal::ShortReply);
    }
    Ok(i32::from(base::word_at(bytes, 0)) - i32::from(size_const))
}

// The directory's size in a raw reply.
pub fn parse_file_directory_size(raw: &[u8], info: Sys0Info) -> Result<i32, Refusal>
    ensures { result ≡ size_of raw.now info.size_const }
{
    size_in(reply_part::data(reply_part::of_raw(raw)), info.size_const)
}

// The directory's size in a reply that begins with the requester's id.
pub fn reply_directory_size(reply: &[u8], info: Sys0Info) -> Result<i32, Refusal>
    ensures { result ≡ reply_size reply.now info.size_const }
{
    size_in(
        reply_part::data(reply_part::of_reply(reply)),
        info.size_const,
    )
}
