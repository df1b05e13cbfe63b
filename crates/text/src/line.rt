// Parts of a text: the fields of a line.
ghost use Rattle.std.specs.Prelude.{◌≡◌, ℕ, suc, ◌+◌, ◌-◌, ◌≤◌, cond, eqb, min, length, take, drop};
ghost use Rattle.text.specs.Line.{cut, part_at, same};

const BLANK: u8 = 32;

// The end of the part that starts here: the next byte `by`, or the end.
#[tactic(auto, using(crate::proofs::Splits::end_stop, crate::proofs::Splits::end_turn, crate::proofs::Splits::end_none))]
pub fn part_end(s: &[u8], by: u8, at: usize) -> usize
    ensures { (result ≡ at + length (part_at by 0 (drop at s.now))) × (at ≤ result) × (result ≤ at + (length s.now - at)) }
{
    for i in at..s.len() {
        if s[i] == by {
            return i;
        }
    }
    at.max(s.len())
}

// The start of the next part; the end where there is none.
#[tactic(auto, using(crate::proofs::Splits::next_some, crate::proofs::Splits::next_none))]
fn next_start(s: &[u8], by: u8, at: usize) -> usize
    requires { at ≤ length s.now }
    ensures { (result ≤ length s.now) × ((k : ℕ) → part_at by k (drop result s.now) ≡ part_at by (suc k) (drop at s.now)) }
{
    let e = part_end(s, by, at);
    if e < s.len() { e + 1 } else { e }
}

// The start of part k.
fn part_start(s: &[u8], by: u8, k: usize) -> usize
    ensures { (result ≤ length s.now) × (part_at by 0 (drop result s.now) ≡ part_at by k s.now) }
{
    let mut at = 0;
    for _i in 0..k {
        at = next_start(s, by, at);
    }
    at
}

// Part k of a text that is cut at each byte `by`, counted from 0; empty where there is none.
pub fn part(s: &[u8], by: u8, k: usize) -> &[u8]
    ensures { result.now ≡ part_at by k s.now }
{
    let a = part_start(s, by, k);
    let e = part_end(s, by, a);
    &s[a..e]
}

// 1 for the byte `by`, else 0.
fn one_for(c: u8, by: u8) -> usize
    ensures { (result ≡ cond (eqb c by) 1 0) × (result ≤ 1) }
{
    if c == by { 1 } else { 0 }
}

// How many parts there are. Counted without a branch: `filter` had one for each byte.
pub fn parts(s: &[u8], by: u8) -> usize
    ensures { result ≡ length (cut by s.now) }
{
    let mut n = 1;
    for b in s {
        n += one_for(*b, by);
    }
    n
}

// Field k of a line, counted from 0; empty where there is none.
pub fn field(line: &[u8], k: usize) -> &[u8]
    ensures { result.now ≡ part_at 32 k line.now }
{
    part(line, BLANK, k)
}

// How many fields a line has.
pub fn fields(line: &[u8]) -> usize
    ensures { result ≡ length (cut 32 line.now) }
{
    parts(line, BLANK)
}

// Are these the same bytes?
#[tactic(auto, using(crate::proofs::Splits::same_is))]
pub fn is(a: &[u8], b: &[u8]) -> bool
    ensures { result ≡ same a.now b.now }
{
    a == b
}

// So many bytes, or all where there are fewer.
#[tactic(auto, using(crate::proofs::Splits::counted))]
pub fn within(n: usize, s: &[u8]) -> usize
    ensures { (result ≤ length s.now) × (result ≡ length (take result s.now)) × (result ≡ min n (length s.now)) }
{
    n.min(s.len())
}
