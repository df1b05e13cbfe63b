// The texts of the status codes of a reply, and how a text is said.
#![tactic(auto)]

ghost use Rattle.std.specs.Prelude.{take};
ghost use Rattle.reply_status_text.specs.Texts.{text_of, Tells};

use base::Refusal;

// Bytes that a status text may need.
pub const ROOM: usize = 96;

// Says a text; of one above 96 bytes the first 96. The answer is how long it is. Refused with 6.
pub fn say(text: &[u8], out: &mut [u8]) -> Result<Option<usize>, Refusal>
    ensures { Tells (Some (take 96 text.now)) out.old result out.new }
{
    if out.len() < ROOM {
        return Err(Refusal::ShortOutput);
    }
    let n = text.len().min(ROOM);
    Ok(Some(base::put_all(out, 0, &text[..n])))
}

// The text of a status code, as the Rust spells it, said where it has one. Each is said in its own arm, where its length is known: as one text of
// any length it takes half as many instructions more.
pub fn pccc_error_text(status: u8, out: &mut [u8]) -> Result<Option<usize>, Refusal>
    ensures { Tells (text_of status) out.old result out.new }
{
    match status {
        0x10 => say(
            b"Illegal Command or Format, Address may not exist or not enough elements in data file",
            out,
        ),
        0x20 => say(b"PLC Has a Problem and Will Not Communicate", out),
        0x30 => say(
            b"Remote Node Host is Missing, Disconnected, or Shut Down",
            out,
        ),
        0x40 => say(
            b"Host Could Not Complete Function Due To Hardware Fault",
            out,
        ),
        0x50 => say(b"Addressing problem or Memory Protect Rungs", out),
        0x60 => say(
            b"Function not allows due to command protection selection",
            out,
        ),
        0x70 => say(b"Processor is in Program mode", out),
        0x80 => say(
            b"Compatibility mode file missing or communication zone problem",
            out,
        ),
        0x90 => say(b"Remote node cannot buffer command", out),
        0xF0 => say(b"Error code in EXT STS Byte", out),
        _ => Ok(None),
    }
}
