// The names of words and status bits in T, C and R.
#![tactic(auto)]

ghost use Rattle.std.specs.Prelude.{◌≡◌, true, position, length, map, slice_get};
ghost use Rattle.std.specs.Option.{option_copied};
ghost use Rattle.base.specs.Chars.{spelled};
ghost use Rattle.file_type.specs.Table.{bit_names, word_names, field_names, of_field};

use file_type::{Field, FileType};

// The names of words 1 and 2, and of the status bits from bit 15 down.
fn names(t: FileType) -> &'static [&'static str]
    ensures { map (λ s. s.now) result.now ≡ field_names t }
{
    match t {
        FileType::T => &["PRE", "ACC", "EN", "TT", "DN"],
        FileType::C => &["PRE", "ACC", "CU", "CD", "DN", "OV", "UN", "UA"],
        FileType::R => &["LEN", "POS", "EN", "EU", "DN", "EM", "ER", "UL", "IN", "FD"],
        _ => &[],
    }
}

// How many status bits of an element have a name.
pub fn bits(t: FileType) -> usize
    ensures { result ≡ length (bit_names t) }
{
    names(t).len().saturating_sub(2)
}

// The name of status bit 15 - i.
pub fn bit_name(t: FileType, i: usize) -> Option<&'static str>
    ensures { option_copied result ≡ slice_get (bit_names t) i }
{
    names(t).get(2..)?.get(i).copied()
}

// The name of word i + 1 of T, C and R.
pub fn word_name(t: FileType, i: usize) -> Option<&'static str>
    ensures { option_copied result ≡ slice_get (word_names t) i }
{
    if i < 2 {
        names(t).get(i).copied()
    } else {
        None
    }
}

// The place of a name, in either case, among these.
fn place(names: &[&str], name: &[u8]) -> Option<usize>
    ensures { result ≡ position (λ s. spelled true s.now name.now) names.now }
{
    names.iter().position(|n| is_name(n, name))
}

fn is_name(n: &str, name: &[u8]) -> bool
    ensures { result ≡ spelled true n.now name.now }
{
    base::spells(name, n.as_bytes(), true)
}

// What a name, in either case, stands for in an element of this type.
#[tactic(auto, using(crate::proofs::NameTable::placed_text, file_type::proofs::FieldNames::place_within), unfolding(file_type::specs::Table::of_field))]
pub fn field(t: FileType, name: &[u8]) -> Option<Field>
    ensures { result ≡ of_field t name.now }
{
    let i = place(names(t), name)? as u8;
    Some(if i < 2 {
        Field::Word(i)
    } else {
        Field::Bit(i - 2)
    })
}
