// The calls of the line protocol on replies (module 4). The answer stands in `memory`, of which a status text gets `room` bytes.
use crate::answers::{Answer, Answered};
use crate::lines::Call;

fn text_or_none(written: Option<usize>) -> Answer {
    match written {
        Some(n) => Answer::Bytes(n),
        None => Answer::Nothing,
    }
}

// `status RAWREPLY`
pub fn status(call: Call<'_>, memory: &mut [u8]) -> Answered {
    let room = call.room.min(memory.len());
    let written = reply::request_status(call.bytes(0), &mut memory[..room])?;
    Ok(text_or_none(written))
}

// `errtext STATUS`
pub fn error_text(call: Call<'_>, memory: &mut [u8]) -> Answered {
    let room = call.room.min(memory.len());
    let written = reply_status_text::pccc_error_text(call.byte(0), &mut memory[..room])?;
    Ok(text_or_none(written))
}

// `datalogparse RAWREPLY`
pub fn datalog(call: Call<'_>, memory: &mut [u8]) -> Answered {
    let entry = reply::parse_datalog(call.bytes(0));
    Ok(Answer::Bytes(base::put_all(memory, 0, entry)))
}
