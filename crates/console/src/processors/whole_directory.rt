// `directory`: the whole directory, as our own requests read it out of our processor
use crate::answers::{Answer, Answered};
use crate::processors::plc::Plc;
use base::Refusal;
use directory_sys0::Sys0Info;
use request_frame::Requestor;

pub fn directory(memory: &mut [u8], plc: &mut Plc) -> Answered {
    if plc.files().is_empty() {
        return Err(Refusal::Unsound.into());
    }
    let info = directory_sys0::sys0_info(plc.type_text());
    let total = size(info, plc);
    Ok(Answer::Bytes(rows(info, total, memory, plc)))
}

// The length of the reply to a message, whose command stands behind its first 6 bytes.
fn replied(
    message: &[u8],
    written: Result<usize, Refusal>,
    reply: &mut [u8],
    plc: &mut Plc,
) -> Result<usize, Refusal> {
    let end = written?.min(message.len());
    plc.obey(&message[end.min(6)..end], reply)
}

// The size element, less what the processor adds.
fn size(info: Sys0Info, plc: &mut Plc) -> u16 {
    let mut message = [0u8; 32];
    let q = Requestor::default();
    let written = request_untagged::file_directory_size_request(info, q, 0, &mut message);
    let mut reply = [0u8; 600];
    let _ = replied(&message, written, &mut reply, plc);
    base::word_at(&reply, 11).saturating_sub(info.size_const)
}

// 200 bytes at a time, each time from 100 words further on. The answer is how many bytes were laid.
fn rows(info: Sys0Info, total: u16, memory: &mut [u8], plc: &mut Plc) -> usize {
    let mut end = 0;
    for k in 0..total.div_ceil(200) {
        let left = total - 200 * k;
        end = part(
            info,
            usize::from(100 * k),
            left.min(200) as u8,
            memory,
            end,
            plc,
        );
    }
    end
}

fn part(
    info: Sys0Info,
    at: usize,
    size: u8,
    memory: &mut [u8],
    end: usize,
    plc: &mut Plc,
) -> usize {
    let mut message = [0u8; 32];
    let q = Requestor::default();
    let written = request_untagged::file_directory_read_request(
        info.file_type,
        at,
        size,
        q,
        0,
        &mut message,
    );
    let mut reply = [0u8; 600];
    let n = replied(&message, written, &mut reply, plc)
        .unwrap_or(0)
        .min(600);
    // the reply's data, behind 7 bytes of requester, CMD, STS and TNS
    base::put_all(memory, end, &reply[n.min(11)..n])
}
