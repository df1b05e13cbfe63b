// Values into the bytes of an element.
ghost use Rattle.std.specs.Prelude.{◌≤◌, ◌++◌, length};
ghost use Rattle.base.specs.Numbers.{low_first};
ghost use Rattle.base.specs.Put.{Wrote};
ghost use Rattle.element_spec.specs.Encode.{Stores, float_of, words_of};

use base::Refusal;
use element_whole::WORD;

pub fn float(bits: u32, element: &mut [u8])
    requires { 4 ≤ length element.old }
    ensures { Stores (float_of bits) element.old (Ok tt) element.new }
{
    base::put_number(element, 0, 4, u64::from(bits));
}

// Three words; none is stored where one is out of range.
#[tactic(auto, unfolding(element_whole::specs::Whole::bits_of))]
pub fn words(x: i64, y: i64, z: i64, element: &mut [u8]) -> Result<(), Refusal>
    requires { 6 ≤ length element.old }
    ensures { Stores (words_of x y z) element.old result element.new }
{
    let a = WORD.bits_of(x).ok_or(Refusal::NumberOutOfRange)?;
    let b = WORD.bits_of(y).ok_or(Refusal::NumberOutOfRange)?;
    let c = WORD.bits_of(z).ok_or(Refusal::NumberOutOfRange)?;
    lay_words(a, b, c, element);
    Ok(())
}

fn lay_words(a: u64, b: u64, c: u64, element: &mut [u8]) -> usize
    requires { 6 ≤ length element.old }
    ensures { Wrote element.old 0 (low_first 2 a ++ (low_first 2 b ++ low_first 2 c)) result element.new }
{
    let p = base::put_number(element, 0, 2, a);
    let q = base::put_number(element, p, 2, b);
    base::put_number(element, q, 2, c)
}
