// The calls of the line protocol on requests (module 3). A request is built in the first `room` bytes of `memory`.
use crate::answers::{Answer, Answered};
use crate::lines::{Call, Kind};
use request::WriteValue;
use request_frame::Requestor;

fn byte(s: &[u8], i: usize) -> u8 {
    *s.get(i).unwrap_or(&0)
}

// Two vendor bytes and four serial bytes, in field i.
fn requestor(call: Call<'_>, i: usize) -> Requestor {
    let s = call.bytes(i);
    Requestor {
        vid: [byte(s, 0), byte(s, 1)],
        vsn: [byte(s, 2), byte(s, 3), byte(s, 4), byte(s, 5)],
    }
}

// `read TAG REQ SEQ`
pub fn read(call: Call<'_>, memory: &mut [u8]) -> Answered {
    let room = call.room.min(memory.len());
    let reading = crate::addresses::reading(call);
    let (_, n) = request::read_request(
        call.bytes(0),
        reading,
        requestor(call, 1),
        call.word(2),
        &mut memory[..room],
    )?;
    Ok(Answer::Bytes(n))
}

// The value of the fields KIND VALUE: `raw BYTES`, `text LATIN1`, `bool 0` or `bool 1`.
fn value_of(call: Call<'_>) -> WriteValue {
    match call.kind {
        Some(Kind::Raw) => WriteValue::Raw,
        Some(Kind::Text) => WriteValue::Text,
        _ => WriteValue::Bool(call.number(4) == 1),
    }
}

// `write TAG REQ SEQ KIND VALUE`
pub fn write(call: Call<'_>, memory: &mut [u8]) -> Answered {
    let room = call.room.min(memory.len());
    let reading = crate::addresses::reading(call);
    let (_, n) = request::write_request(
        call.bytes(0),
        reading,
        value_of(call),
        call.bytes(4),
        requestor(call, 1),
        call.word(2),
        &mut memory[..room],
    )?;
    Ok(Answer::Bytes(n))
}

// `proc REQ SEQ`
pub fn processor_type(call: Call<'_>, memory: &mut [u8]) -> Answered {
    let room = call.room.min(memory.len());
    let q = requestor(call, 0);
    let n = request_untagged::processor_type_request(q, call.word(1), &mut memory[..room])?;
    Ok(Answer::Bytes(n))
}

// `datalogreq QUEUE`
pub fn datalog(call: Call<'_>, memory: &mut [u8]) -> Answered {
    let room = call.room.min(memory.len());
    let n = request_untagged::datalog_request(call.byte(0), &mut memory[..room])?;
    Ok(Answer::Bytes(n))
}

// `dirsizereq TYPETEXT REQ SEQ`
pub fn directory_size(call: Call<'_>, memory: &mut [u8]) -> Answered {
    let room = call.room.min(memory.len());
    let n = request_untagged::file_directory_size_request(
        directory_sys0::sys0_info(call.bytes(0)),
        requestor(call, 1),
        call.word(2),
        &mut memory[..room],
    )?;
    Ok(Answer::Bytes(n))
}

// `dirreadreq FILETYPE OFFSET SIZE REQ SEQ`
pub fn directory_read(call: Call<'_>, memory: &mut [u8]) -> Answered {
    let room = call.room.min(memory.len());
    let n = request_untagged::file_directory_read_request(
        call.byte(0),
        call.number(1) as usize,
        call.byte(2),
        requestor(call, 3),
        call.word(4),
        &mut memory[..room],
    )?;
    Ok(Answer::Bytes(n))
}
