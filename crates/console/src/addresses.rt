// The calls of the line protocol on addresses (module 3). The answer stands in `memory`.
use crate::answers::{Answer, Answered, Text};
use crate::lines::Call;
use address::{Address, Reading};

// `tag TAG`
pub fn tag(call: Call<'_>, memory: &mut [u8]) -> Answered {
    let x = address::parse_tag(call.bytes(0), reading(call))?;
    let mut text = Text::new(memory);
    shown(x, &mut text);
    Ok(text.answer())
}

// `dotted TAG`. The text is written to the first `room` bytes of `memory`.
pub fn dotted(call: Call<'_>, memory: &mut [u8]) -> Answered {
    let n = call.room.min(memory.len());
    let n = address_dotted::dotted(call.bytes(0), &mut memory[..n])?;
    Ok(Answer::Bytes(n))
}

// `new` before a call: its tag is read as a new entry.
pub fn reading(call: Call<'_>) -> Reading {
    if call.new {
        Reading::New
    } else {
        Reading::Stored
    }
}

// CODE file element position sub bit count keptlength
fn shown(x: Address, text: &mut Text<'_>) {
    text.code(b' ', x.file_type.code());
    text.number(b' ', u64::from(x.file_number));
    text.number(b' ', u64::from(x.element_number));
    or_dash(x.pos_number, text);
    or_dash(x.sub_element, text);
    text.number(b' ', u64::from(x.bit));
    text.number(b' ', x.element_count);
    text.number(b' ', x.kept as u64);
}

fn or_dash(n: Option<u16>, text: &mut Text<'_>) {
    match n {
        Some(n) => text.number(b' ', u64::from(n)),
        None => text.plain(b" -"),
    }
}
