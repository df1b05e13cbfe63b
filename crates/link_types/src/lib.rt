// The records of the C interface for file types and the names of their fields, and what makes them of the calls' answers: C has no enums that hold
// values.
#![tactic(auto)]

ghost use Rattle.std.specs.Prelude.{◌≡◌, ◌≤◌, [], length};
ghost use Rattle.std.specs.Option.{option_copied, unwrap_or};
ghost use Rattle.link_types.specs.Types.{known_type, type_record, name_record, bit_name_in, word_name_in, field_in, field_record};

use file_type::{Field, FileType};

// All is 0 where the type is not known.
#[repr(C)]
#[derive(Clone, Copy, Default)]
pub struct SlcFileType {
    pub known: u8,
    pub code: u8,
    pub element_size: u8,
    pub simulated: u8,
    pub bits: u8,
    pub name_len: u8,
    pub name: [u8; 3],
}

// A name: its first `len` bytes.
#[repr(C)]
#[derive(Clone, Copy)]
pub struct SlcName {
    pub len: u8,
    pub text: [u8; 3],
}

// What a name stands for: nothing (0), a word (1) or a bit (2), and the place of the name among those of its kind.
#[repr(C)]
#[derive(Clone, Copy)]
pub struct SlcField {
    pub kind: u8,
    pub index: u8,
}

fn name_record(name: &str) -> SlcName
    requires { length name.now ≤ 3 }
    ensures { result ≡ name_record name.now }
{
    // by bytes: a text that `copy_from_slice` lays in parts and the record then reads whole keeps the processor waiting
    let text = match name.as_bytes() {
        [a, b, c] => [*a, *b, *c],
        [a, b] => [*a, *b, 0],
        [a] => [*a, 0, 0],
        _ => [0; 3],
    };
    SlcName {
        len: name.len() as u8,
        text,
    }
}

#[tactic(auto, using(crate::proofs::TypeRecords::name_short, crate::proofs::TypeRecords::size_fits, crate::proofs::TypeRecords::bits_fit), unfolding(crate::specs::Types::known_type))]
fn known_type(t: FileType) -> SlcFileType
    ensures { result ≡ known_type t }
{
    let name = name_record(t.name());
    let text = name.text;
    SlcFileType {
        known: 1,
        code: t.code(),
        element_size: t.element_size() as u8,
        simulated: u8::from(t.simulated()),
        bits: file_type_fields::bits(t) as u8,
        name_len: name.len,
        name: text,
    }
}

pub fn type_record(t: Option<FileType>) -> SlcFileType
    ensures { result ≡ type_record t }
{
    match t {
        Some(t) => known_type(t),
        None => SlcFileType::default(),
    }
}

// The name, or an empty one where there is none.
fn name_or_empty(name: Option<&'static str>) -> SlcName
    requires { length (unwrap_or (option_copied name) []) ≤ 3 }
    ensures { result ≡ name_record (unwrap_or (option_copied name.entry) []) }
{
    name_record(name.unwrap_or(""))
}

// The name of status bit 15 - i of a type; empty where there is none.
#[tactic(auto, using(crate::proofs::TypeRecords::bit_short, crate::proofs::TypeRecords::name_of))]
pub fn bit_name(t: Option<FileType>, i: usize) -> SlcName
    ensures { result ≡ name_record (bit_name_in t i) }
{
    match t {
        Some(t) => name_or_empty(file_type_fields::bit_name(t, i)),
        None => name_record(""),
    }
}

// The name of word i + 1 of a type; empty where there is none.
#[tactic(auto, using(crate::proofs::TypeRecords::word_short, crate::proofs::TypeRecords::name_of))]
pub fn word_name(t: Option<FileType>, i: usize) -> SlcName
    ensures { result ≡ name_record (word_name_in t i) }
{
    match t {
        Some(t) => name_or_empty(file_type_fields::word_name(t, i)),
        None => name_record(""),
    }
}

fn field_record(f: Option<Field>) -> SlcField
    ensures { result ≡ field_record f }
{
    match f {
        Some(Field::Word(i)) => SlcField { kind: 1, index: i },
        Some(Field::Bit(i)) => SlcField { kind: 2, index: i },
        None => SlcField { kind: 0, index: 0 },
    }
}

// What a name stands for in an element of a type.
pub fn field_of(t: Option<FileType>, name: &[u8]) -> SlcField
    ensures { result ≡ field_record (field_in t name.now) }
{
    match t {
        Some(t) => field_record(file_type_fields::field(t, name)),
        None => field_record(None),
    }
}
