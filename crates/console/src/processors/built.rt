// `sim TYPETEXT FILES LOG`: builds the simulated processor.
use crate::answers::{Answer, Answered};
use crate::lines::Call;
use crate::processors::lists;
use crate::processors::plc::{LOG, Plc};

// The fields FILES and LOG are lists. `memory` is for the bytes of each entry.
pub fn build(call: Call<'_>, memory: &mut [u8], plc: &mut Plc) -> Answered {
    let mut files = [[0u32; 3]; 257];
    let n = lists::files(call.written(1), &mut files)?;
    let mut log = [0u8; LOG];
    let count = lists::log(call.written(2), memory, &mut log)?;
    plc.build(call.bytes(0), &files[..n.min(257)], log, count)?;
    Ok(Answer::Done)
}
