// Whole numbers and their bits in two's complement.
#![tactic(auto)]

ghost use Rattle.std.specs.Prelude.{◌≡◌};
ghost use Rattle.element_whole.specs.Whole.{joined, bits_of, signed};

// A number's sign, and n of n or of -(n + 1).
#[derive(Clone, Copy, Debug, PartialEq, Eq)]
pub struct Parted {
    pub negative: bool,
    pub size: u64,
}

pub fn apart(n: i64) -> Parted
    ensures { n ≡ joined result }
{
    if n < 0 {
        return Parted {
            negative: true,
            size: (-1 - n) as u64,
        };
    }
    Parted {
        negative: false,
        size: n as u64,
    }
}

// The number that a word stands for.
#[tactic(auto, using(crate::proofs::Signed::word_signed))]
pub fn signed_word(w: u16) -> i16
    ensures { result ≡ signed 0xFFFF w }
{
    w.cast_signed()
}

// The number that a long stands for.
#[tactic(auto, using(crate::proofs::Signed::long_signed))]
pub fn signed_long(l: u32) -> i32
    ensures { result ≡ signed 0xFFFFFFFF l }
{
    l.cast_signed()
}

// Whole numbers from -low to high in so many bytes; `ones` is the largest number of that width.
#[derive(Clone, Copy, Debug, PartialEq, Eq)]
pub struct WholeKind {
    pub bytes: usize,
    pub ones: u64,
    pub low: u64,
    pub high: u64,
}

pub const WORD: WholeKind = WholeKind {
    bytes: 2,
    ones: 0xFFFF,
    low: 32768,
    high: 65535,
};

// Words 1 and 2 of T, C and R, set by their names.
pub const NAMED_WORD: WholeKind = WholeKind {
    high: 32767,
    ..WORD
};

pub const LONG: WholeKind = WholeKind {
    bytes: 4,
    ones: 0xFFFF_FFFF,
    low: 2147483648,
    high: 2147483647,
};

impl WholeKind {
    // The bits in two's complement of a number that is in range.
    #[tactic(auto, using(crate::proofs::Signed::same), unfolding(crate::specs::Whole::bits_of))]
    pub fn bits_of(self, n: i64) -> Option<u64>
        ensures { result ≡ bits_of self.ones self.low self.high n }
    {
        let p = apart(n);
        if p.negative {
            (p.size < self.low).then_some(self.ones.saturating_sub(p.size))
        } else {
            (p.size <= self.high).then_some(p.size)
        }
    }
}
