// The calls of the line protocol on file types and texts (modules 1 and 2). The answer stands in `memory`.
mod shown;

use crate::answers::{Answer, Answered, Text};
use crate::lines::Call;
use file_type::FileType;

// `ft CODE`
pub fn by_code(call: Call<'_>, memory: &mut [u8]) -> Answered {
    Ok(of_type(FileType::from_code(call.byte(0)), memory))
}

// `ftname NAME`
pub fn by_name(call: Call<'_>, memory: &mut [u8]) -> Answered {
    Ok(of_type(FileType::from_name(call.bytes(0)), memory))
}

fn of_type(known: Option<FileType>, memory: &mut [u8]) -> Answer {
    let Some(t) = known else {
        return Answer::Nothing;
    };
    let mut text = Text::new(memory);
    shown::file_type(t, &mut text);
    text.answer()
}

// `simft CODE`
pub fn simulated(call: Call<'_>, memory: &mut [u8]) -> Answered {
    let Some(t) = FileType::from_code(call.byte(0)) else {
        return Ok(Answer::Nothing);
    };
    if !t.simulated() {
        return Ok(Answer::Nothing);
    }
    let mut text = Text::new(memory);
    shown::simulated(t, &mut text);
    Ok(text.answer())
}

// `swap BYTES`
pub fn swapped(call: Call<'_>, memory: &mut [u8]) -> Answered {
    Ok(Answer::Bytes(element_text::slc_string_swap(call.bytes(0), memory)?))
}

// `pairs BYTES`
pub fn pairs(call: Call<'_>, memory: &mut [u8]) -> Answered {
    let n = base::put_all(memory, 0, call.bytes(0)).min(memory.len());
    element_text::swap_pairs(&mut memory[..n]);
    Ok(Answer::Bytes(n))
}

// `ascii LATIN1`
pub fn ascii(call: Call<'_>, memory: &mut [u8]) -> Answered {
    let two = element_text::encode_pccc_ascii(call.bytes(0));
    Ok(Answer::Bytes(base::put_all(memory, 0, &two)))
}

// `string LATIN1`
pub fn string(call: Call<'_>, memory: &mut [u8]) -> Answered {
    let line = element_text::encode_pccc_string(call.bytes(0));
    Ok(Answer::Bytes(base::put_all(memory, 0, &line)))
}
