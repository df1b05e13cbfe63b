// The phrases that several forms of an address share, read from a cursor on.
#![tactic(auto)]

ghost use Rattle.std.specs.Prelude.{◌≡◌, [], ◌∷◌, drop};
ghost use Rattle.file_type.specs.declared.FileType.TheVariants.{C, T, L, F, B, N};
ghost use Rattle.parser_spec.specs.Characters.{utf8, first_of};
ghost use Rattle.parser_spec.specs.Parts.{ended};
ghost use Rattle.parser.specs.CursorAnswers.{read_at, place_at};
ghost use Rattle.address_spec.specs.Spelling.{file_before, optional_bit, bit_count, ignored, optional_position, slots, slot as spelling_slot, st_or_a};

use address_spec::Address;
use file_type::FileType;
use parser::Cur;

#[tactic(auto, using(crate::proofs::FormReaders::phrases))]
pub fn ct_letter(c: Cur, s: &[u8]) -> Option<(FileType, Cur)>
    ensures { result ≡ read_at c.i s.now (first_of utf8 (("C", C) ∷ ("T", T) ∷ [])) }
{
    if let Some(d) = parser_characters::letter(c, s, b'C') {
        return Some((FileType::C, d));
    }
    let d = parser_characters::letter(c, s, b'T')?;
    Some((FileType::T, d))
}

#[tactic(auto, using(crate::proofs::FormReaders::phrases))]
pub fn lfbn_letter(c: Cur, s: &[u8]) -> Option<(FileType, Cur)>
    ensures { result ≡ read_at c.i s.now (first_of utf8 (("L", L) ∷ ("F", F) ∷ ("B", B) ∷ ("N", N) ∷ [])) }
{
    if let Some(d) = parser_characters::letter(c, s, b'L') {
        return Some((FileType::L, d));
    }
    if let Some(d) = parser_characters::letter(c, s, b'F') {
        return Some((FileType::F, d));
    }
    if let Some(d) = parser_characters::letter(c, s, b'B') {
        return Some((FileType::B, d));
    }
    let d = parser_characters::letter(c, s, b'N')?;
    Some((FileType::N, d))
}

// The type and file of I and O.
#[tactic(auto, using(crate::proofs::FormReaders::phrases))]
fn io_letter(c: Cur, s: &[u8]) -> Option<((FileType, u16), Cur)>
    ensures { result ≡ read_at c.i s.now (first_of utf8 slots) }
{
    if let Some(d) = parser_characters::letter(c, s, b'I') {
        return Some(((FileType::I, 1), d));
    }
    let d = parser_characters::letter(c, s, b'O')?;
    Some(((FileType::O, 0), d))
}

// The letters ST, or A.
#[tactic(auto, using(crate::proofs::FormReaders::phrases), unfolding(address_spec::specs::Spelling::st_or_a))]
pub fn st_or_a(c: Cur, s: &[u8], st: bool) -> Option<(FileType, Cur)>
    ensures { result ≡ read_at c.i s.now (st_or_a utf8 st) }
{
    if st {
        let d = parser_characters::letter(c, s, b'S')?;
        let e = parser_characters::letter(d, s, b'T')?;
        Some((FileType::ST, e))
    } else {
        let d = parser_characters::letter(c, s, b'A')?;
        Some((FileType::A, d))
    }
}

// A file and the sign behind it.
#[tactic(auto, using(crate::proofs::FormReaders::phrases), unfolding(address_spec::specs::Spelling::file_before))]
pub fn file_then(c: Cur, s: &[u8], sign: u8) -> Option<(u16, Cur)>
    ensures { result ≡ read_at c.i s.now (file_before sign) }
{
    let (f, d) = c.digits_in(s, 3, 1, 255)?;
    let e = d.eat(s, sign)?;
    Some((f, e))
}

// An optional `/` and bit.
#[tactic(auto, using(crate::proofs::FormReaders::phrases), unfolding(address_spec::specs::Spelling::optional_bit))]
fn optional_bit(c: Cur, s: &[u8]) -> Option<(Option<u16>, Cur)>
    ensures { result ≡ read_at c.i s.now optional_bit }
{
    let Some(d) = c.eat(s, b'/') else {
        return Some((None, c));
    };
    let (n, e) = d.digits_in(s, 2, 0, 15)?;
    Some((Some(n), e))
}

// An optional bit, and a count.
#[tactic(auto, using(crate::proofs::FormReaders::phrases), unfolding(address_spec::specs::Spelling::bit_count))]
pub fn bit_count(c: Cur, s: &[u8]) -> Option<((Option<u16>, u64), Cur)>
    ensures { result ≡ read_at c.i s.now bit_count }
{
    let (b, d) = optional_bit(c, s)?;
    let (n, e) = d.count(s, false)?;
    Some(((b, n), e))
}

// An optional number of 1 to 3 digits, ignored.
#[tactic(auto, unfolding(address_spec::specs::Spelling::ignored, parser_spec::specs::Parts::then, parser::specs::CursorAnswers::placed, parser::specs::CursorAnswers::place_of))]
fn ignore_number(c: Cur, s: &[u8]) -> Option<Cur>
    ensures { result ≡ place_at c.i s.now ignored }
{
    if parser::digit_run(s, c.i) == 0 {
        return Some(c);
    }
    let (_, d) = c.digits(s, 3)?;
    Some(d)
}

// I or O, an optional number, `:`.
#[tactic(auto, using(crate::proofs::FormReaders::phrases), unfolding(address_spec::specs::Spelling::slot))]
pub fn slot(c: Cur, s: &[u8]) -> Option<((FileType, u16), Cur)>
    ensures { result ≡ read_at c.i s.now (spelling_slot utf8) }
{
    let (slot, d) = io_letter(c, s)?;
    let e = ignore_number(d, s)?;
    let g = e.eat(s, b':')?;
    Some((slot, g))
}

// An optional `.` and position, 0 where it is absent.
#[tactic(auto, using(crate::proofs::FormReaders::phrases), unfolding(address_spec::specs::Spelling::optional_position))]
pub fn optional_position(c: Cur, s: &[u8]) -> Option<(u16, Cur)>
    ensures { result ≡ read_at c.i s.now optional_position }
{
    match c.eat(s, b'.') {
        Some(d) => d.digits_in(s, 3, 0, 999),
        None => Some((0, c)),
    }
}

// The address, if nothing is left of the tag.
#[tactic(auto, unfolding(parser_spec::specs::Parts::ended))]
pub fn found(c: Cur, tag: &[u8], a: Address) -> Option<Address>
    ensures { result ≡ ended (Some (a, drop c.i tag.now)) }
{
    if c.done(tag) { Some(a) } else { None }
}
