// The calls of the line protocol on the plain data of the simulated processor (module 6). The answer stands in `memory`.
mod dumped;
mod spoiled;

use crate::answers::{Answer, Answered, Text};
use crate::lines::Call;
use crate::processors::plc::Plc;
use base::Refusal;
use processor_spec::FileRecord;
pub use spoiled::spoil;

// The records in use: without any there is no processor.
fn files(plc: &Plc) -> Result<&[FileRecord], Refusal> {
    let files = plc.files();
    if files.is_empty() {
        return Err(Refusal::Unsound);
    }
    Ok(files)
}

// The place behind a file.
fn end_of(r: &FileRecord) -> usize {
    usize::from(r.start).saturating_add(usize::from(r.length))
}

// `fill NUMBER BYTES`: sets all bytes of a file. 19 where no file has this number and as many bytes.
pub fn fill(call: Call<'_>, plc: &mut Plc) -> Answered {
    let number = call.number(0);
    let bytes = call.bytes(1);
    let place = files(plc)?
        .iter()
        .find(|r| u64::from(r.number) == number && usize::from(r.length) == bytes.len())
        .ok_or(Refusal::NoSuchElement)?;
    let start = usize::from(place.start);
    let end = start.saturating_add(bytes.len());
    plc.lay_behind(end);
    base::put_all(&mut plc.bytes, start, bytes);
    plc.keep_behind(end);
    Ok(Answer::Done)
}

// `dump`: n number:CODE:BYTES .. log k ENTRY ..
pub fn dump(memory: &mut [u8], plc: &mut Plc) -> Answered {
    let end = files(plc)?.iter().fold(0, |end, r| end_of(r).max(end));
    plc.lay_behind(end);
    let mut text = Text::new(memory);
    dumped::shown(plc, &mut text);
    Ok(text.answer())
}

// `hash`: H k, FNV-1a (64 bits) of all file bytes in ascending file order, and how many datalog entries are left
pub fn hash(memory: &mut [u8], plc: &mut Plc) -> Answered {
    let mut text = Text::new(memory);
    // The files lie end to end from 0 on.
    if let Some(last) = files(plc)?.last() {
        let end = end_of(last);
        plc.lay_behind(end);
        let h = fnv(&plc.bytes[..end.min(plc.bytes.len())]);
        let left = plc.slc.log_left;
        text.byte_string(b' ', &h.to_be_bytes());
        text.number(b' ', left as u64);
    }
    Ok(text.answer())
}

fn fnv(bytes: &[u8]) -> u64 {
    bytes.iter().fold(0xCBF2_9CE4_8422_2325, |h: u64, b| {
        (h ^ u64::from(*b)).wrapping_mul(0x100_0000_01B3)
    })
}
