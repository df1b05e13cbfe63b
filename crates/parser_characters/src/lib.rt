// Characters of a text in UTF-8, read from a cursor on, and file letters.
#![tactic(auto)]

ghost use Rattle.std.specs.Prelude.{◌≡◌, ◌+◌, ◌*◌, ◌^◌, ◌≤◌, length, drop, map};
ghost use Rattle.parser_spec.specs.Characters.{◌to◌, byte_in, point_in, character as characters_character, well_formed, capital as characters_capital, utf8, letter_of};
ghost use Rattle.parser.specs.CursorAnswers.{read_at, place_at};

use parser::Cur;

// A byte from low to high, counted from low.
#[tactic(auto, using(crate::proofs::CharacterReaders::the_byte), unfolding(parser_spec::specs::Characters::byte_in, parser::specs::CursorAnswers::placed))]
fn byte_in(c: Cur, s: &[u8], low: u8, high: u8) -> Option<(u8, Cur)>
    ensures { result ≡ read_at c.i s.now (byte_in (low to high)) }
{
    let i = c.i;
    if s.len() <= i || s[i] < low || high < s[i] {
        return None;
    }
    Some((s[i] - low, Cur { i: i + 1 }))
}

// The bytes behind a character's first one, each of its range, with the number `n` of those before them.
fn bytes_behind(
    mut c: Cur,
    s: &[u8],
    first: u32,
    mut n: u32,
    trail: &[(u8, u8)],
) -> Option<(u32, Cur)>
    requires { (first ≤ 0x100000) × (64 ^ length trail.now * (n + 5) ≤ 2 ^ 30) }
    ensures { result ≡ read_at c.i s.now (point_in first n (map (λ r. r.0 to r.1) trail.now)) }
{
    for r in trail {
        let (a, d) = byte_in(c, s, r.0, r.1)?;
        n = n * 64 + u32::from(a);
        c = d;
    }
    Some((first + n, c))
}

// One character, by the Unicode Standard's table of well-formed byte sequences, a row to a line.
pub fn character(c: Cur, s: &[u8]) -> Option<(u32, Cur)>
    ensures { result ≡ read_at c.i s.now characters_character }
{
    let i = c.i;
    if s.len() <= i {
        return None;
    }
    let b = s[i];
    let n = u32::from(b);
    let d = Cur { i: i + 1 };
    match b {
        0x00..=0x7F => Some((n, d)),
        0xC2..=0xDF => bytes_behind(d, s, 0x80, n - 0xC2, &[(0x80, 0xBF)]),
        0xE0 => bytes_behind(d, s, 0x800, 0, &[(0xA0, 0xBF), (0x80, 0xBF)]),
        0xE1..=0xEC => bytes_behind(d, s, 0x1000, n - 0xE1, &[(0x80, 0xBF), (0x80, 0xBF)]),
        0xED => bytes_behind(d, s, 0xD000, 0, &[(0x80, 0x9F), (0x80, 0xBF)]),
        0xEE..=0xEF => bytes_behind(d, s, 0xE000, n - 0xEE, &[(0x80, 0xBF), (0x80, 0xBF)]),
        0xF0 => bytes_behind(
            d,
            s,
            0x10000,
            0,
            &[(0x90, 0xBF), (0x80, 0xBF), (0x80, 0xBF)],
        ),
        0xF1..=0xF3 => bytes_behind(
            d,
            s,
            0x40000,
            n - 0xF1,
            &[(0x80, 0xBF), (0x80, 0xBF), (0x80, 0xBF)],
        ),
        0xF4 => bytes_behind(
            d,
            s,
            0x100000,
            0,
            &[(0x80, 0x8F), (0x80, 0xBF), (0x80, 0xBF)],
        ),
        _ => None,
    }
}

// How many bytes below 128 the text begins with: they are characters by themselves.
#[tactic(auto, using(crate::proofs::CharacterReaders::formed_small))]
fn ascii_run(s: &[u8]) -> usize
    ensures { well_formed (drop result s.now) ≡ well_formed s.now }
{
    for (i, b) in s.iter().enumerate() {
        if 128 <= *b {
            return i;
        }
    }
    s.len()
}

// Are all of the bytes characters? From the first one above U+007F on each is decoded.
#[tactic(auto, using(crate::proofs::CharacterReaders::forming))]
pub fn is_well_formed(s: &[u8]) -> bool
    ensures { result ≡ well_formed s.now }
{
    let mut i = ascii_run(s);
    while i < s.len() {
        let Some((_, c)) = character(Cur { i }, s) else {
            return false;
        };
        i = c.i;
    }
    true
}

// The capital letter that a code point stands for where a file letter is read; any other is itself.
fn capital(x: u32) -> u32
    ensures { result ≡ characters_capital x }
{
    match x {
        0x131 => u32::from(b'I'),
        0x17F => u32::from(b'S'),
        97..=122 => x - 32,
        _ => x,
    }
}

// A character that stands for this capital letter.
#[tactic(auto, using(crate::proofs::CharacterReaders::one_letter))]
fn letter_of(c: Cur, s: &[u8], v: u8) -> Option<Cur>
    ensures { result ≡ place_at c.i s.now (letter_of utf8 v) }
{
    let (x, d) = character(c, s)?;
    if capital(x) == u32::from(v) {
        Some(d)
    } else {
        None
    }
}

// A file letter: this capital one in either case, ı for I and ſ for S. A byte below 128 needs no decoding, and of the letters below 128 only I and S have a form
// above U+007F. `v` is such a letter, and a constant, wherever this is called.
#[tactic(auto, using(crate::proofs::CharacterReaders::letters))]
pub fn letter(c: Cur, s: &[u8], v: u8) -> Option<Cur>
    ensures { result ≡ place_at c.i s.now (letter_of utf8 v) }
{
    let i = c.i;
    if s.len() <= i {
        return None;
    }
    if 128 <= v {
        return letter_of(c, s, v);
    }
    let b = s[i];
    if b.to_ascii_uppercase() == v {
        return Some(Cur { i: i + 1 });
    }
    if b < 128 {
        return None;
    }
    match v {
        b'I' | b'S' => letter_of(c, s, v),
        _ => None,
    }
}
