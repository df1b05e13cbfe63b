// The calls of the line protocol on the file directory, client side (module 5). The answer stands in `memory`.
mod rows;

use crate::answers::{Answered, Text};
use crate::lines::Call;
use directory_sys0::Sys0Info;
pub use rows::say_dir;

// `sys0 TYPETEXT`
pub fn sys0(call: Call<'_>, memory: &mut [u8]) -> Answered {
    let mut text = Text::new(memory);
    shown(directory_sys0::sys0_info(call.bytes(0)), &mut text);
    Ok(text.answer())
}

// firstrow rowsize FILETYPE SIZEELEMENT SIZELENGTH constant
fn shown(i: Sys0Info, text: &mut Text<'_>) {
    text.number(b' ', i.file_position as u64);
    text.number(b' ', i.row_size as u64);
    text.code(b' ', i.file_type);
    text.code(b' ', i.size_element);
    text.code(b' ', i.size_len);
    text.number(b' ', u64::from(i.size_const));
}

// `dirsize TYPETEXT RAWREPLY`: N, which may be negative
pub fn size(call: Call<'_>, memory: &mut [u8]) -> Answered {
    let info = directory_sys0::sys0_info(call.bytes(0));
    let n = directory_size::parse_file_directory_size(call.bytes(1), info)?;
    let mut text = Text::new(memory);
    text.signed(b' ', i64::from(n));
    Ok(text.answer())
}
