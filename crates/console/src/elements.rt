// The calls of the line protocol on the bytes of one element (module 2); and values as fields give them and answers show them. The answer stands
// in `memory`.
mod shown;

use crate::answers::{Answer, Answered, Text};
use crate::lines::{Call, Kind};
use base::Refusal;
use element_spec::{Element, Value};
use file_type::FileType;

fn type_of(call: Call<'_>) -> Result<FileType, Refusal> {
    FileType::from_code(call.byte(0)).ok_or(Refusal::NoSuchElement)
}

// `dec CODE BYTES`. The output of a text that is read has `room` bytes.
pub fn decoded(call: Call<'_>, memory: &mut [u8]) -> Answered {
    let t = type_of(call)?;
    let mut text = [0u8; 128];
    let n = call.room.min(text.len());
    let e = element_decode::decode_element(t, call.bytes(1), &mut text[..n])?;
    Ok(as_shown(t, e, &text, memory))
}

// An element, whose text stands in `characters`.
pub fn as_shown(t: FileType, e: Element, characters: &[u8], memory: &mut [u8]) -> Answer {
    let mut text = Text::new(memory);
    shown::element(t, e, characters, &mut text);
    text.answer()
}

// The value of the fields KIND VALUE: `int N`, `float BITS`, `words A,B,C`, `text BYTES`, `field NAME N`.
pub fn value_of(call: Call<'_>) -> Value {
    match call.kind {
        Some(Kind::Int) => Value::Whole(call.signed(0)),
        Some(Kind::Float) => Value::Float(call.float()),
        Some(Kind::Words) => Value::Words(call.signed(0), call.signed(1), call.signed(2)),
        Some(Kind::Text) => Value::Text,
        _ => Value::Field(call.signed(0)),
    }
}

// `enc CODE BYTES KIND VALUE`
pub fn encoded(call: Call<'_>, memory: &mut [u8]) -> Answered {
    let t = type_of(call)?;
    let n = base::put_all(memory, 0, call.bytes(1)).min(memory.len());
    element_encode::encode_element(t, value_of(call), call.bytes(3), &mut memory[..n])?;
    Ok(Answer::Bytes(n))
}
