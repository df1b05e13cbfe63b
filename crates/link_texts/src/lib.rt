// The records of the C interface that count what was written to lent memory, and those of the other answers of replies and the client's file
// directory. `refused` is 0, or the number of the question that was answered with no.
#![tactic(auto)]

ghost use Rattle.std.specs.Prelude.{◌≡◌, ◌≤◌, length};
ghost use Rattle.link_texts.specs.WrittenRecords.{written, written_record, status_record, size_record, end_part, part_of, reply_part, Swaps};

use base::Refusal;

// How many bytes or files were written.
#[repr(C)]
#[derive(Clone, Copy)]
pub struct SlcWritten {
    pub refused: u8,
    pub length: usize,
}

// A part of the caller's bytes.
#[repr(C)]
#[derive(Clone, Copy)]
pub struct SlcPart {
    pub from: usize,
    pub length: usize,
}

#[repr(C)]
#[derive(Clone, Copy)]
pub struct SlcDirectorySize {
    pub refused: u8,
    pub bytes: i32,
}

fn written(refused: u8, length: usize) -> SlcWritten
    ensures { result ≡ written refused length }
{
    SlcWritten { refused, length }
}

pub fn written_record(r: Result<usize, Refusal>) -> SlcWritten
    ensures { result ≡ written_record r }
{
    match r {
        Ok(n) => written(0, n),
        Err(e) => written(e.number(), 0),
    }
}

// Where there is nothing to say, 0 bytes.
pub fn status_record(r: Result<Option<usize>, Refusal>) -> SlcWritten
    ensures { result ≡ status_record r }
{
    written_record(r.map(|n| n.unwrap_or(0)))
}

pub fn size_record(r: Result<i32, Refusal>) -> SlcDirectorySize
    ensures { result ≡ size_record r }
{
    match r {
        Ok(bytes) => SlcDirectorySize { refused: 0, bytes },
        Err(e) => SlcDirectorySize {
            refused: e.number(),
            bytes: 0,
        },
    }
}

// The part of some bytes that stands at their end.
fn end_part(bytes: &[u8], end: &[u8]) -> SlcPart
    requires { length end.now ≤ length bytes.now }
    ensures { result ≡ end_part bytes.now end.now }
{
    SlcPart {
        from: bytes.len() - end.len(),
        length: end.len(),
    }
}

// The place of the datalog entry in a raw reply.
pub fn datalog_part(raw: &[u8]) -> SlcPart
    ensures { result ≡ part_of raw.now }
{
    end_part(raw, reply::parse_datalog(raw))
}

// The place of the datalog entry in a reply that begins with the requester's id.
pub fn reply_datalog_part(reply: &[u8]) -> SlcPart
    ensures { result ≡ reply_part reply.now }
{
    end_part(reply, reply::reply_datalog(reply))
}

// Lays bytes over the start of a memory that has room for all of them. Refused with 6.
pub fn laid(bytes: &[u8], out: &mut [u8]) -> SlcWritten
    ensures { Swaps bytes.now out.old result out.new }
{
    if out.len() < bytes.len() {
        return written_record(Err(Refusal::ShortOutput));
    }
    written_record(Ok(base::put_all(out, 0, bytes)))
}
