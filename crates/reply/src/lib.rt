// What a reply says: its status in words, and the datalog entry that it carries.
#![tactic(auto)]

ghost use Rattle.std.specs.Prelude.{◌≡◌, ◌+◌, ◌<◌, ◌≤◌, length};
ghost use Rattle.base.specs.Chars.{bytes};
ghost use Rattle.base.specs.Put.{Wrote};
ghost use Rattle.reply_status_text.specs.Texts.{Tells};
ghost use Rattle.reply.specs.Status.{digit as status_digit, in_hex, first, said, status_in, status_text, reply_status, datalog_entry, reply_datalog};

use base::Refusal;
use reply_status_text::ROOM;

// A small digit.
fn digit(d: u8) -> u8
    requires { d < 16 }
    ensures { result ≡ status_digit d }
{
    if d < 10 { 48 + d } else { 87 + d }
}

// A byte in hexadecimal behind a text, and a closing bracket. The answer is the place behind them.
fn lay_hex(out: &mut [u8], at: usize, before: &[u8], b: u8) -> usize
    requires { at + length (in_hex before.now b) ≤ length out.old }
    ensures { Wrote out.old at (in_hex before.now b) result out.new }
{
    let digits = [digit(b / 16), digit(b % 16), b')'];
    let n = base::put_all(out, at, before);
    base::put_all(out, n, &digits)
}

// A status without a text, as a number.
fn unknown(status: u8, out: &mut [u8]) -> Result<Option<usize>, Refusal>
    ensures { Tells (Some (in_hex (bytes "Unknown Status (0x") status)) out.old result out.new }
{
    if out.len() < ROOM {
        return Err(Refusal::ShortOutput);
    }
    Ok(Some(lay_hex(out, 0, b"Unknown Status (0x", status)))
}

// The status F0, with the extended status where the reply has one.
fn extended(extension: &[u8], out: &mut [u8]) -> Result<Option<usize>, Refusal>
    ensures { Tells (said (Some 0xF0) (first extension.now)) out.old result out.new }
{
    let Some(n) = reply_status_text::pccc_error_text(0xF0, out)? else {
        return Ok(None);
    };
    match extension {
        [] => Ok(Some(n)),
        [b, ..] => Ok(Some(lay_hex(out, n, b" (EXT STS 0x", *b))),
    }
}

// The status in words, by the part of a reply from it on; nothing where it is success.
#[tactic(auto, unfolding(crate::specs::Status::status_in))]
fn status_in(part: &[u8], out: &mut [u8]) -> Result<Option<usize>, Refusal>
    ensures { Tells (status_in part.now) out.old result out.new }
{
    let [status, ..] = part else {
        return reply_status_text::say(b"Unknown Status", out);
    };
    match *status {
        0 => Ok(None),
        0xF0 => extended(reply_part::data(part), out),
        s => match reply_status_text::pccc_error_text(s, out)? {
            None => unknown(s, out),
            said => Ok(said),
        },
    }
}

// The status of a raw reply.
pub fn request_status(raw: &[u8], out: &mut [u8]) -> Result<Option<usize>, Refusal>
    ensures { Tells (status_text raw.now) out.old result out.new }
{
    status_in(reply_part::of_raw(raw), out)
}

// The status of a reply that begins with the requester's id.
pub fn reply_status(reply: &[u8], out: &mut [u8]) -> Result<Option<usize>, Refusal>
    ensures { Tells (reply_status reply.now) out.old result out.new }
{
    status_in(reply_part::of_reply(reply), out)
}

// The datalog entry of a raw reply.
pub fn parse_datalog(raw: &[u8]) -> &[u8]
    ensures { result.now ≡ datalog_entry raw.now }
{
    reply_part::data(reply_part::of_raw(raw))
}

// The datalog entry of a reply that begins with the requester's id.
pub fn reply_datalog(reply: &[u8]) -> &[u8]
    ensures { result.now ≡ reply_datalog reply.now }
{
    reply_part::data(reply_part::of_reply(reply))
}
