// What all crates share: bytes and numbers laid over lent memory, and numbers read from it.
// A writer that finds no room changes nothing and answers the place that it was given.
#![tactic(auto)]

mod refusal;

ghost use Rattle.std.specs.Prelude.{◌≡◌, ◌+◌, ◌≤◌, length, take, drop};
ghost use Rattle.base.specs.Chars.{letter as chars_letter, spelled};
ghost use Rattle.base.specs.Masks.{mix, bit_mask};
ghost use Rattle.base.specs.Numbers.{low_first, number};
ghost use Rattle.base.specs.Put.{Wrote, Puts};

pub use refusal::Refusal;

// These bytes from a place on. The answer is the place behind them.
pub fn put_all(out: &mut [u8], at: usize, bytes: &[u8]) -> usize
    ensures { Puts out.old at bytes.now result out.new }
{
    if out.len() < at || out.len() - at < bytes.len() {
        return at;
    }
    // by bytes: `copy_from_slice` would have the archive for C ask for `memmove`
    for i in 0..bytes.len() {
        out[at + i] = bytes[i];
    }
    at + bytes.len()
}

fn lay_number(out: &mut [u8], at: usize, k: usize, n: u64) -> usize
    requires { at + k ≤ length out.old }
    ensures { Wrote out.old at (low_first k n) result out.new }
{
    let mut rest = n;
    for i in 0..k {
        out[at + i] = (rest % 256) as u8;
        rest /= 256;
    }
    at + k
}

// The low k bytes of a number, low byte first, from a place on: a word has 2, a long 4.
pub fn put_number(out: &mut [u8], at: usize, k: usize, n: u64) -> usize
    ensures { Puts out.old at (low_first k n) result out.new }
{
    if out.len() < at || out.len() - at < k {
        return at;
    }
    lay_number(out, at, k, n)
}

// The word at a place; bytes that are missing count as 0.
pub fn word_at(s: &[u8], at: usize) -> u16
    ensures { result ≡ number (take 2 (drop at s.now)) }
{
    if s.len() <= at {
        return 0;
    }
    let low = u16::from(s[at]);
    if s.len() - at < 2 {
        return low;
    }
    low + 256 * u16::from(s[at + 1])
}

// The long at a place; bytes that are missing count as 0.
pub fn long_at(s: &[u8], at: usize) -> u32
    ensures { result ≡ number (take 4 (drop at s.now)) }
{
    if s.len() <= at {
        return 0;
    }
    let low = u32::from(word_at(s, at));
    if s.len() - at < 2 {
        return low;
    }
    low + 65536 * u32::from(word_at(s, at + 2))
}

// A byte as it is compared: where any case counts, a small letter is its capital one.
pub fn letter(b: u8, any_case: bool) -> u8
    ensures { result ≡ chars_letter any_case b }
{
    if any_case { b.to_ascii_uppercase() } else { b }
}

// Is `s` the text `name`? Where any case counts, `name` has capital letters.
pub fn spells(s: &[u8], name: &[u8], any_case: bool) -> bool
    ensures { result ≡ spelled any_case name.now s.now }
{
    if s.len() != name.len() {
        return false;
    }
    for (i, a) in name.iter().enumerate() {
        if letter(s[i], any_case) != *a {
            return false;
        }
    }
    true
}

// A word under a mask: the mask's bits from the value, the others from the old word.
pub fn mixed(mask: u16, old: u16, value: u16) -> u16
    ensures { result ≡ mix 0xFFFF mask old value }
{
    (old & !mask) | (value & mask)
}

// The mask of a bit, to be held to the manual's word drawings; 0 where a word has no such bit.
#[tactic(auto, using(crate::proofs::Masks::mask_there))]
pub fn bit_mask(b: usize) -> u16
    ensures { result ≡ bit_mask b }
{
    match b {
        0 => 0x0001,
        1 => 0x0002,
        2 => 0x0004,
        3 => 0x0008,
        4 => 0x0010,
        5 => 0x0020,
        6 => 0x0040,
        7 => 0x0080,
        8 => 0x0100,
        9 => 0x0200,
        10 => 0x0400,
        11 => 0x0800,
        12 => 0x1000,
        13 => 0x2000,
        14 => 0x4000,
        15 => 0x8000,
        _ => 0,
    }
}
