// The values of the twelve file types, which of them suit a type, and by definition the bytes that they set and the values that bytes give.
#![tactic(auto)]

pub mod kind;

// A value to set. Text, and the name of a field, stand beside it.
#[derive(Clone, Copy, Debug, PartialEq, Eq)]
pub enum Value {
    Whole(i64),
    Float(u32),
    Text,
    Words(i64, i64, i64),
    Field(i64),
}

// What reading an element answers. Text stands in the lent memory, so many bytes of it. Fields: words 1 and 2 of T, C and R,
// and word 0 with the bits that have no name cleared.
#[derive(Clone, Copy, Debug, PartialEq, Eq)]
pub enum Element {
    Whole(i32),
    Float(u32),
    Text(usize),
    Fields(i16, i16, u16),
}
