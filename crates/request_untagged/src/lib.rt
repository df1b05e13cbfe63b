// The requests without an address text: for the processor type, for a datalog entry, and for the size and the rows of the file directory.
#![tactic(auto)]

ghost use Rattle.std.specs.Prelude.{◌≤◌, ◌++◌, length};
ghost use Rattle.request_frame.specs.RequestFrame.{command_head};
ghost use Rattle.request_untagged.specs.Requests.{Builds, sent, processor_type, datalog, directory_size, directory_read};

use base::Refusal;
use directory_sys0::Sys0Info;
use request_frame::{Requestor, Target};

// Bytes that such a request may need.
const ROOM: usize = 27;

// A command with few bytes behind its head. Refused with 6.
fn send(
    out: &mut [u8],
    q: Requestor,
    cmd: u8,
    sequence: u16,
    behind: &[u8],
) -> Result<usize, Refusal>
    requires { length behind.now ≤ 10 }
    ensures { Builds (sent (command_head q cmd sequence ++ behind.now) out.old) out.old result out.new }
{
    if out.len() < ROOM {
        return Err(Refusal::ShortOutput);
    }
    let a = request_frame::put::command(out, q, cmd, sequence);
    Ok(base::put_all(out, a, behind))
}

// The diagnostic status request, which asks for the processor type. Refused with 6.
#[tactic(auto, unfolding(crate::specs::Requests::processor_type))]
pub fn processor_type_request(q: Requestor, sequence: u16, out: &mut [u8]) -> Result<usize, Refusal>
    ensures { Builds (processor_type q sequence out.old) out.old result out.new }
{
    send(out, q, 0x06, sequence, &[0x03])
}

// The request for the oldest entry of a datalog queue; its requester and sequence are fixed. Refused with 6.
#[tactic(auto, unfolding(crate::specs::Requests::datalog))]
pub fn datalog_request(queue: u8, out: &mut [u8]) -> Result<usize, Refusal>
    ensures { Builds (datalog queue out.old) out.old result out.new }
{
    let q = Requestor {
        vid: [0x4D, 0x00],
        vsn: [0xA1, 0x4E, 0xC3, 0x30],
    };
    send(out, q, 0x0F, 0x30, &[0xA2, 0x6D, 0x00, 0xA5, queue, 0x00])
}

// The request for the size of the file directory. Refused with 6.
#[tactic(auto, unfolding(crate::specs::Requests::directory_size))]
pub fn file_directory_size_request(
    info: Sys0Info,
    q: Requestor,
    sequence: u16,
    out: &mut [u8],
) -> Result<usize, Refusal>
    ensures { Builds (directory_size info q sequence out.old) out.old result out.new }
{
    let asked = [0xA1, info.size_len, 0x00, info.file_type, info.size_element];
    send(out, q, 0x0F, sequence, &asked)
}

// The request for `size` bytes of the file directory from the word `offset` on. Refused with 26 and 6.
pub fn file_directory_read_request(
    file_type: u8,
    offset: usize,
    size: u8,
    q: Requestor,
    sequence: u16,
    out: &mut [u8],
) -> Result<usize, Refusal>
    ensures { Builds (directory_read file_type offset size q sequence out.old) out.old result out.new }
{
    let Ok(element) = u16::try_from(offset) else {
        return Err(Refusal::OffsetOutOfRange);
    };
    if out.len() < ROOM {
        return Err(Refusal::ShortOutput);
    }
    let p = Target {
        file: 0,
        code: file_type,
        element,
        sub: 0,
    };
    let a = request_frame::put::command(out, q, 0x0F, sequence);
    Ok(request_frame::put::two_addresses(out, a, 0xA1, size, p))
}
