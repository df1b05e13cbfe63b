// Bytes as hexadecimal text.
ghost use Rattle.std.specs.Prelude.{◌≡◌, true, ◌+◌, ◌*◌, ◌/◌, ◌%◌, ◌^◌, ◌<◌, ◌≤◌, length};
ghost use Rattle.base.specs.Put.{Wrote, Puts};
ghost use Rattle.text.specs.Hex.{digit as hex_digit, hex, nibble as hex_nibble, digits, hex_text, hex_value, code_of, bits_of, pairs, Unhexed};

use crate::line;

// A capital digit.
#[tactic(auto, unfolding(crate::specs::Hex::digit))]
fn digit(d: u8) -> u8
    requires { d < 16 }
    ensures { result ≡ hex_digit d }
{
    if d < 10 { 48 + d } else { 55 + d }
}

fn lay_hex(out: &mut [u8], at: usize, bytes: &[u8]) -> usize
    requires { at + 2 * length bytes.now ≤ length out.old }
    ensures { Wrote out.old at (hex bytes.now) result out.new }
{
    let mut p = at;
    for b in bytes {
        out[p] = digit(*b / 16);
        out[p + 1] = digit(*b % 16);
        p += 2;
    }
    p
}

// Two digits for each byte, from a place on. The answer is the place behind them.
pub fn put_hex(out: &mut [u8], at: usize, bytes: &[u8]) -> usize
    ensures { Puts out.old at (hex bytes.now) result out.new }
{
    if out.len() < at || (out.len() - at) / 2 < bytes.len() {
        return at;
    }
    lay_hex(out, at, bytes)
}

// The value of a digit in either case; 16 where it is none.
#[tactic(auto, unfolding(crate::specs::Hex::nibble))]
fn nibble(c: u8) -> u8
    ensures { result ≡ hex_nibble c }
{
    match c {
        b'0'..=b'9' => c - b'0',
        b'A'..=b'F' => c - b'A' + 10,
        b'a'..=b'f' => c - b'a' + 10,
        _ => 16,
    }
}

#[tactic(auto, unfolding(crate::specs::Hex::digits))]
fn all_digits(s: &[u8]) -> bool
    ensures { result ≡ digits s.now }
{
    s.iter().all(|c| nibble(*c) < 16)
}

#[tactic(auto, using(crate::proofs::Pairs::digit_at))]
fn lay_pairs(s: &[u8], out: &mut [u8]) -> usize
    requires { (length s.now % 2 ≡ 0) × (digits s.now ≡ true) × (length s.now ≤ 2 * length out.old) }
    ensures { Wrote out.old 0 (pairs s.now) result out.new }
{
    let n = s.len() / 2;
    for i in 0..n {
        out[i] = nibble(s[2 * i]) * 16 + nibble(s[2 * i + 1]);
    }
    n
}

// An even and positive number of digits?
#[tactic(auto, unfolding(crate::specs::Hex::hex_text))]
fn is_digits(s: &[u8]) -> bool
    ensures { result ≡ hex_text s.now }
{
    !s.is_empty() && s.len() % 2 == 0 && all_digits(s)
}

// The bytes that a byte string stands for, at the start of out: how many.
#[tactic(auto, using(crate::proofs::Pairs::byte_strings))]
pub fn unhex(s: &[u8], out: &mut [u8]) -> Option<usize>
    ensures { Unhexed s.now out.old result out.new }
{
    if !is_digits(s) {
        return line::is(s, b"-").then_some(0);
    }
    if out.len() < s.len() / 2 {
        return None;
    }
    Some(lay_pairs(s, out))
}

// The number that so few digits stand for.
#[tactic(auto, using(crate::proofs::Exact::value_done))]
fn value(s: &[u8]) -> u32
    requires { (length s.now ≤ 8) × (digits s.now ≡ true) }
    ensures { (result ≡ hex_value 0 s.now) × (result < 16 ^ length s.now) }
{
    let mut n = 0;
    for c in s {
        n = n * 16 + u32::from(nibble(*c));
    }
    n
}

// A code: exactly two digits.
#[tactic(auto, using(crate::proofs::Exact::two_below), unfolding(crate::specs::Hex::code_of))]
pub fn code(s: &[u8]) -> Option<u8>
    ensures { result ≡ code_of s.now }
{
    if s.len() != 2 || !all_digits(s) {
        return None;
    }
    Some(value(s) as u8)
}

// The bits of a float: exactly eight digits.
#[tactic(auto, unfolding(crate::specs::Hex::bits_of))]
pub fn bits(s: &[u8]) -> Option<u32>
    ensures { result ≡ bits_of s.now }
{
    if s.len() != 8 || !all_digits(s) {
        return None;
    }
    Some(value(s))
}
