// Numbers as decimal text, written and read. No function has a `requires`.
#![tactic(auto)]

ghost use Rattle.std.specs.Prelude.{◌≡◌, ◌+◌, ◌*◌, ◌<◌, ◌≤◌, length, [], ◌∷◌};
ghost use Rattle.base.specs.Put.{Puts};
ghost use Rattle.decimal.specs.Decimals.{decimal, signed_text, unsigned_of, number_from, number_of, plus, minus, signed_of};

// A number's digits, with no zero in front, from a place on. The answer is the place behind them.
pub fn put_decimal(out: &mut [u8], at: usize, n: u64) -> usize
    ensures { Puts out.old at (decimal n) result out.new }
{
    let mut digits = [0u8; 20];
    let mut i = 20;
    let mut rest = n;
    while 10 <= rest {
        i -= 1;
        digits[i] = 48 + (rest % 10) as u8;
        rest /= 10;
    }
    i -= 1;
    digits[i] = 48 + rest as u8;
    base::put_all(out, at, &digits[i..])
}

// A whole number, with `-` in front of a negative one.
pub fn put_signed(out: &mut [u8], at: usize, n: i64) -> usize
    ensures { Puts out.old at (signed_text n) result out.new }
{
    if n < 0 {
        let mut text = [0u8; 20];
        text[0] = b'-';
        let e = put_decimal(&mut text, 1, n.unsigned_abs());
        return base::put_all(out, at, &text[..e]);
    }
    put_decimal(out, at, n.unsigned_abs())
}

// The number that has this digit behind those of n.
#[tactic(auto, unfolding(crate::specs::Decimals::number_from, crate::specs::Decimals::unsigned_of))]
fn more(n: u64, c: u8) -> Option<u64>
    ensures { result ≡ unsigned_of (number_from n (c ∷ [])) }
{
    if !c.is_ascii_digit() {
        return None;
    }
    n.checked_mul(10)?.checked_add(u64::from(c - 48))
}

// A number of one or more digits that is below 2 ^ 64.
#[tactic(auto, using(crate::proofs::Decimals::numbers))]
pub fn number(s: &[u8]) -> Option<u64>
    ensures { result ≡ unsigned_of (number_of s.now) }
{
    if s.is_empty() {
        return None;
    }
    let mut n = 0;
    for c in s {
        n = more(n, *c)?;
    }
    Some(n)
}

// A number with `-` in front or none, from - 2 ^ 63 to 2 ^ 63 - 1.
#[tactic(auto, using(crate::proofs::Signs::signs), unfolding(crate::specs::Decimals::plus, crate::specs::Decimals::minus))]
pub fn signed(s: &[u8]) -> Option<i64>
    ensures { result ≡ signed_of s.now }
{
    match s {
        [] => None,
        [b'-', digits @ ..] => 0i64.checked_sub_unsigned(number(digits)?),
        _ => i64::try_from(number(s)?).ok(),
    }
}
