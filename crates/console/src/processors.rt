// The calls of the line protocol that ask the simulated processor (module 6). The answer stands in `memory`.
mod built;
mod image;
mod lists;
pub mod plc;
mod whole_directory;

use crate::answers::{Answer, Answered};
use crate::lines::Call;
use crate::processors::plc::Plc;
pub use built::build;
use file_type::FileType;
use processor_element_core::{Setting, Spot};
pub use whole_directory::directory;

// `cmd BYTES`. The output of a reply has `room` bytes.
pub fn command(call: Call<'_>, memory: &mut [u8], plc: &mut Plc) -> Answered {
    let room = call.room.min(memory.len());
    let n = plc.obey(call.bytes(0), &mut memory[..room])?;
    Ok(Answer::Bytes(n))
}

// Of a code that is none, a type that no file has: 19 comes after 16.
fn type_of(call: Call<'_>) -> FileType {
    FileType::from_code(call.byte(0)).unwrap_or(FileType::MG)
}

fn number_of(call: Call<'_>) -> u16 {
    u16::try_from(call.number(1)).unwrap_or(u16::MAX)
}

// `get CODE NUMBER ELEMENT`. The output of a text that is read has `room` bytes.
pub fn get(call: Call<'_>, memory: &mut [u8], plc: &Plc) -> Answered {
    let t = type_of(call);
    let spot = Spot {
        number: number_of(call),
        file_type: t,
        element: call.number(2) as usize,
    };
    let mut text = [0u8; 128];
    let room = call.room.min(text.len());
    let e = plc.element(spot, &mut text[..room])?;
    Ok(crate::elements::as_shown(t, e, &text, memory))
}

// `set CODE NUMBER ELEMENT KIND VALUE`
pub fn set(call: Call<'_>, plc: &mut Plc) -> Answered {
    let setting = Setting {
        number: number_of(call),
        file_type: type_of(call),
        element: call.number(2) as usize,
        value: crate::elements::value_of(call),
    };
    plc.set(setting, call.bytes(4))?;
    Ok(Answer::Done)
}
