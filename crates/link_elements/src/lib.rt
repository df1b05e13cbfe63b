// The records of the C interface for values and elements: what is to be set and what is read, told in numbers.
#![tactic(auto)]

ghost use Rattle.std.specs.Prelude.{◌≡◌, length};
ghost use Rattle.element_spec.specs.Decode.{decoded};
ghost use Rattle.element_spec.specs.Encode.{encoded};
ghost use Rattle.link_elements.specs.ElementRecords.{low_half, misfit_of, value_of, stored_number, numbers_of, StoresInNumbers, ReadsInNumbers};

use base::Refusal;
use element_spec::kind::ElementKind;
use element_spec::{Element, Value};
use file_type::FileType;

const WHOLE: u8 = 0;

const FLOAT: u8 = 1;

const TEXT: u8 = 2;

const WORDS: u8 = 3;

const FIELD: u8 = 4;

// A value to set, by its kind. Text, and the name of a field, stand in lent memory.
#[repr(C)]
#[derive(Clone, Copy)]
pub struct SlcValue {
    pub kind: u8,
    pub a: i64,
    pub b: i64,
    pub c: i64,
}

// What reading an element answers, by its kind. Text stands in the lent memory.
#[repr(C)]
#[derive(Clone, Copy)]
pub struct SlcElement {
    pub refused: u8,
    pub kind: u8,
    pub whole: i32,
    pub bits: u32,
    pub length: usize,
    pub word1: i16,
    pub word2: i16,
    pub status: u16,
}

const NOTHING: SlcElement = SlcElement {
    refused: 0,
    kind: WHOLE,
    whole: 0,
    bits: 0,
    length: 0,
    word1: 0,
    word2: 0,
    status: 0,
};

// The low 32 bits of a number in two's complement.
#[tactic(auto, using(crate::proofs::ElementRecords::half))]
fn low_half(n: i64) -> u32
    ensures { result ≡ low_half n }
{
    (n.cast_unsigned() % 0x1_0000_0000) as u32
}

// A value that doesn't suit the type: text suits A and ST alone.
#[tactic(auto, using(crate::proofs::ElementRecords::text_misfit), unfolding(crate::specs::ElementRecords::misfit_of))]
fn misfit(t: FileType) -> Value
    ensures { result ≡ misfit_of t }
{
    match element_spec::kind::kind_of(t) {
        ElementKind::Ascii | ElementKind::Line => Value::Float(0),
        _ => Value::Text,
    }
}

// The value; one of an unknown kind suits no type.
#[tactic(auto, unfolding(crate::specs::ElementRecords::value_of))]
pub fn value_of(t: FileType, v: SlcValue) -> Value
    ensures { result ≡ value_of t v }
{
    match v.kind {
        WHOLE => Value::Whole(v.a),
        FLOAT => Value::Float(low_half(v.a)),
        TEXT => Value::Text,
        WORDS => Value::Words(v.a, v.b, v.c),
        FIELD => Value::Field(v.a),
        _ => misfit(t),
    }
}

pub fn stored_number(r: Result<(), Refusal>) -> u8
    ensures { result ≡ stored_number r }
{
    match r {
        Ok(()) => 0,
        Err(e) => e.number(),
    }
}

#[tactic(auto, unfolding(crate::specs::ElementRecords::numbers_of))]
pub fn numbers_of(r: Result<Element, Refusal>) -> SlcElement
    ensures { result ≡ numbers_of r }
{
    match r {
        Err(e) => SlcElement {
            refused: e.number(),
            ..NOTHING
        },
        Ok(Element::Whole(whole)) => SlcElement { whole, ..NOTHING },
        Ok(Element::Float(bits)) => SlcElement {
            kind: FLOAT,
            bits,
            ..NOTHING
        },
        Ok(Element::Text(length)) => SlcElement {
            kind: TEXT,
            length,
            ..NOTHING
        },
        Ok(Element::Fields(word1, word2, status)) => SlcElement {
            kind: FIELD,
            word1,
            word2,
            status,
            ..NOTHING
        },
    }
}

// The bytes of one element, set from a value.
#[tactic(auto, using(crate::proofs::ElementRecords::encoded_in_lem))]
pub fn encode_element(t: FileType, v: SlcValue, text: &[u8], element: &mut [u8]) -> u8
    ensures { StoresInNumbers (encoded t (value_of t v) text.now element.old) element.old result element.new }
{
    stored_number(element_encode::encode_element(t, value_of(t, v), text, element))
}

// The bytes of one element, read.
#[tactic(auto, using(crate::proofs::ElementRecords::in_numbers_lem))]
pub fn decode_element(t: FileType, element: &[u8], text: &mut [u8]) -> SlcElement
    ensures { ReadsInNumbers (decoded t element.now (length text.old)) text.old result text.new }
{
    numbers_of(element_decode::decode_element(t, element, text))
}
