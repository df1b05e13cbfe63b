// Numbers, bits and named fields into the bytes of an element.
#![tactic(auto)]

ghost use Rattle.std.specs.Prelude.{◌+◌, ◌≤◌, length};
ghost use Rattle.file_type.specs.Fields.{Placed};
ghost use Rattle.element_spec.specs.Encode.{Stores, of_bytes, whole_at, bit_of, field_of, named_of};

use base::Refusal;
use element_whole::{NAMED_WORD, WholeKind};
use file_type::{Field, FileType};

// A whole number from a place on.
#[tactic(auto, unfolding(element_whole::specs::Whole::bits_of))]
pub fn put_whole(kind: WholeKind, n: i64, element: &mut [u8], at: usize) -> Result<(), Refusal>
    ensures { Stores (of_bytes (at + kind.bytes) element.old (whole_at at kind.bytes kind.ones kind.low kind.high n)) element.old result element.new }
{
    if element.len() < at || element.len() - at < kind.bytes {
        return Err(Refusal::NoSuchElement);
    }
    let bits = kind.bits_of(n).ok_or(Refusal::NumberOutOfRange)?;
    base::put_number(element, at, kind.bytes, bits);
    Ok(())
}

// Sets or clears a bit of word 0.
fn put_bit(b: u8, clear: bool, element: &mut [u8])
    requires { 2 ≤ length element.old }
    ensures { Stores (bit_of b clear element.old) element.old (Ok tt) element.new }
{
    let mask = base::bit_mask(usize::from(b));
    let old = base::word_at(element, 0);
    let word = base::mixed(mask, old, if clear { 0 } else { mask });
    base::put_number(element, 0, 2, u64::from(word));
}

// One named field.
fn put_field(f: Field, n: i64, element: &mut [u8]) -> Result<(), Refusal>
    requires placed { Placed f }
    requires in_bounds { 6 ≤ length element.old }
    ensures { Stores (field_of (Some f) n element.old) element.old result element.new }
{
    match f {
        Field::Word(i) => put_whole(NAMED_WORD, n, element, 2 + 2 * usize::from(i)),
        Field::Bit(i) => {
            put_bit(15 - i, n == 0, element);
            Ok(())
        }
    }
}

// The field that a type gives this name.
#[tactic(auto, using(file_type::proofs::FieldNames::placed))]
pub fn put_named(t: FileType, name: &[u8], n: i64, element: &mut [u8]) -> Result<(), Refusal>
    ensures { Stores (of_bytes 6 element.old (named_of t name.now element.old n)) element.old result element.new }
{
    if element.len() < 6 {
        return Err(Refusal::NoSuchElement);
    }
    let f = file_type_fields::field(t, name).ok_or(Refusal::UnknownField)?;
    put_field(f, n, element)
}
