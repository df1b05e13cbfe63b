// Reading a text of bytes part by part. A reader answers what it read and a cursor behind it.
#![tactic(auto)]

ghost use Rattle.std.specs.Prelude.{◌≡◌, ◌+◌, ◌*◌, min, drop};
ghost use Rattle.parser_spec.specs.DecimalNumbers.{digit_value, Run, most, number_of};
ghost use Rattle.parser_spec.specs.Parts.{at_end, byte, numeral, digits, digits_in, count_number, count_of, before_byte};
ghost use Rattle.parser.specs.CursorAnswers.{read_at, place_at};

// A place in a text.
#[derive(Clone, Copy)]
pub struct Cur {
    pub i: usize,
}

// How many digits stand at `at`.
#[tactic(auto, using(crate::proofs::DecimalNumbers::runs))]
pub fn digit_run(s: &[u8], at: usize) -> usize
    ensures { Run s.now at result }
{
    for i in at..s.len() {
        if !s[i].is_ascii_digit() {
            return i - at;
        }
    }
    s.len().saturating_sub(at)
}

// One more digit behind `n`, held to 2^64 - 1; any other byte counts as 0.
fn push_digit(n: u64, b: u8) -> u64
    ensures { result ≡ min (n * 10 + digit_value b) most }
{
    let d = if b.is_ascii_digit() {
        u64::from(b - b'0')
    } else {
        0
    };
    n.saturating_mul(10).saturating_add(d)
}

// The value of digits, held to 2^64 - 1.
pub fn number_of(s: &[u8]) -> u64
    ensures { result ≡ number_of s.now }
{
    s.iter().fold(0, |n, b| push_digit(n, *b))
}

// How many bytes stand before the first `v`.
#[tactic(auto, using(crate::proofs::DecimalNumbers::bytes_before))]
pub fn find(s: &[u8], v: u8) -> usize
    ensures { result ≡ before_byte v s.now }
{
    for (i, b) in s.iter().enumerate() {
        if *b == v {
            return i;
        }
    }
    s.len()
}

impl Cur {
    // This byte.
    #[tactic(auto, using(crate::proofs::PartReaders::one_byte))]
    pub fn eat(self, s: &[u8], v: u8) -> Option<Cur>
        ensures { result ≡ place_at self.i s.now (byte v) }
    {
        let i = self.i;
        if s.len() <= i || s[i] != v {
            return None;
        }
        Some(Cur { i: i + 1 })
    }

    // One digit or more, and no digit behind them.
    #[tactic(auto, using(crate::proofs::PartReaders::numerals))]
    pub fn numeral(self, s: &[u8]) -> Option<(u64, Cur)>
        ensures { result ≡ read_at self.i s.now numeral }
    {
        let i = self.i;
        let n = digit_run(s, i);
        if n == 0 {
            return None;
        }
        let e = i + n;
        Some((number_of(&s[i..e]), Cur { i: e }))
    }

    // The same, with at most so many digits.
    #[tactic(auto, unfolding(parser_spec::specs::Parts::digits, crate::specs::CursorAnswers::placed))]
    pub fn digits(self, s: &[u8], max: usize) -> Option<(u64, Cur)>
        ensures { result ≡ read_at self.i s.now (digits max) }
    {
        if max < digit_run(s, self.i) {
            return None;
        }
        self.numeral(s)
    }

    // The same, from low to high.
    #[tactic(auto, unfolding(parser_spec::specs::Parts::digits_in, parser_spec::specs::Parts::then, parser_spec::specs::Parts::here, crate::specs::CursorAnswers::placed))]
    pub fn digits_in(self, s: &[u8], max: usize, low: u16, high: u16) -> Option<(u16, Cur)>
        ensures { result ≡ read_at self.i s.now (digits_in max low high) }
    {
        let (n, c) = self.digits(s, max)?;
        if n < u64::from(low) || u64::from(high) < n {
            return None;
        }
        Some((n as u16, c))
    }

    // The number of a count: any, or only 1 or 2.
    #[tactic(auto, unfolding(parser_spec::specs::Parts::count_number))]
    fn count_number(self, s: &[u8], one_or_two: bool) -> Option<(u64, Cur)>
        ensures { result ≡ read_at self.i s.now (count_number one_or_two) }
    {
        if !one_or_two {
            return self.numeral(s);
        }
        let (n, c) = self.digits_in(s, 1, 1, 2)?;
        Some((u64::from(n), c))
    }

    // An optional `{n}`, 1 where it is absent.
    pub fn count(self, s: &[u8], one_or_two: bool) -> Option<(u64, Cur)>
        ensures { result ≡ read_at self.i s.now (count_of one_or_two) }
    {
        let Some(c) = self.eat(s, b'{') else {
            return Some((1, self));
        };
        let (n, d) = c.count_number(s, one_or_two)?;
        let e = d.eat(s, b'}')?;
        Some((n, e))
    }

    // Nothing is left.
    #[tactic(auto, using(crate::proofs::PartReaders::end_left))]
    pub fn done(self, s: &[u8]) -> bool
        ensures { result ≡ at_end (drop self.i s.now) }
    {
        s.len() <= self.i
    }
}
