// Timers and counters: the names of their sub-elements, and the element in front of a name.
#![tactic(auto)]

ghost use Rattle.std.specs.Prelude.{◌≡◌, [], ◌∷◌, ◌+◌, ◌≤◌, length, drop};
ghost use Rattle.parser_spec.specs.Parts.{one};
ghost use Rattle.parser_spec.specs.Characters.{character};
ghost use Rattle.parser.specs.CursorAnswers.{place_at};
ghost use Rattle.address_spec.specs.ReaderAnswers.{to_the_end};
ghost use Rattle.address_spec.specs.Spelling.{ct_names, name_in, separates, cut, element_name};

use parser::Cur;

// A name of two letters, by both at once.
#[tactic(auto, using(crate::proofs::Timers::short_is, crate::proofs::Timers::short_not), unfolding(address_spec::specs::Spelling::ct_names))]
fn short_name(a: u8, b: u8) -> Option<u16>
    ensures { name_in ct_names (a ∷ b ∷ []) ≡ to_the_end result }
{
    let x = u16::from(base::letter(a, true));
    let y = u16::from(base::letter(b, true));
    match x * 256 + y {
        0x454E => Some(15), // EN
        0x5454 => Some(14), // TT
        0x444E => Some(13), // DN
        0x4355 => Some(15), // CU
        0x4344 => Some(14), // CD
        0x4F56 => Some(12), // OV
        0x554E => Some(11), // UN
        0x5541 => Some(10), // UA
        _ => None,
    }
}

// A name of three.
#[tactic(auto, using(crate::proofs::Timers::long_is, crate::proofs::Timers::long_not), unfolding(address_spec::specs::Spelling::ct_names))]
fn long_name(a: u8, b: u8, c: u8) -> Option<u16>
    ensures { name_in ct_names (a ∷ b ∷ c ∷ []) ≡ to_the_end result }
{
    let x = u32::from(base::letter(a, true));
    let y = u32::from(base::letter(b, true));
    let z = u32::from(base::letter(c, true));
    match (x * 256 + y) * 256 + z {
        0x505245 => Some(1), // PRE
        0x414343 => Some(2), // ACC
        _ => None,
    }
}

// The number of the name that `t` spells.
#[tactic(auto, using(crate::proofs::Timers::other_length))]
fn ct_bit(t: &[u8]) -> Option<u16>
    ensures { name_in ct_names t.now ≡ to_the_end result }
{
    match *t {
        [a, b] => short_name(a, b),
        [a, b, c] => long_name(a, b, c),
        _ => None,
    }
}

// May this character stand before a name?
fn is_separator(x: u32) -> bool
    ensures { result ≡ separates x }
{
    x != 10
}

// A separator, of any character.
#[tactic(auto, unfolding(parser_spec::specs::Parts::one, parser_spec::specs::Parts::then, parser_spec::specs::Parts::here, parser::specs::CursorAnswers::placed, parser::specs::CursorAnswers::place_of))]
fn separator_of(c: Cur, s: &[u8]) -> Option<Cur>
    ensures { result ≡ place_at c.i s.now (one character separates) }
{
    let (x, d) = parser_characters::character(c, s)?;
    if is_separator(x) { Some(d) } else { None }
}

// The same. A byte below 128 is a character by itself, and needs no decoding.
#[tactic(auto, using(parser_characters::proofs::CharacterReaders::none_left, crate::proofs::Timers::sign_here, crate::proofs::Timers::sign_not))]
fn separator(c: Cur, s: &[u8]) -> Option<Cur>
    ensures { result ≡ place_at c.i s.now (one character separates) }
{
    let i = c.i;
    if s.len() <= i {
        return None;
    }
    let b = s[i];
    if 128 <= b {
        return separator_of(c, s);
    }
    if is_separator(u32::from(b)) {
        Some(Cur { i: i + 1 })
    } else {
        None
    }
}

// An element of k digits, a separator, a name.
#[tactic(auto, using(crate::proofs::Timers::cut_no, crate::proofs::Timers::name_within, crate::proofs::Timers::cut_unnamed, crate::proofs::Timers::cut_named))]
fn cut_at(c: Cur, s: &[u8], k: usize) -> Option<(u64, u16)>
    requires { c.i + k ≤ length s.now }
    ensures { cut character separates k (drop c.i s.now) ≡ to_the_end result }
{
    let e = c.i + k;
    let d = separator(Cur { i: e }, s)?;
    let bit = ct_bit(&s[d.i..])?;
    Some((parser::number_of(&s[c.i..e]), bit))
}

// The same with three digits or fewer, longest cut first.
#[tactic(auto, using(crate::proofs::Timers::cuts_start, crate::proofs::Timers::cuts_miss, crate::proofs::Timers::cuts_none))]
pub fn element_name(c: Cur, s: &[u8]) -> Option<(u64, u16)>
    ensures { element_name character separates (drop c.i s.now) ≡ to_the_end result }
{
    let most = parser::digit_run(s, c.i).min(3);
    for k in (1..=most).rev() {
        if let Some(named) = cut_at(c, s, k) {
            return Some(named);
        }
    }
    None
}
