// The questions put to a call, each by what it means to be answered with no.
ghost use Rattle.std.specs.Prelude.{◌≡◌};
ghost use Rattle.base.specs.Refusals.{number_of};

use std::error::Error;
use std::fmt;

// The first question that was answered with no.
#[derive(Clone, Copy, Debug, PartialEq, Eq)]
pub enum Refusal {
    MalformedTag = 1,
    NotAnAddress = 2,
    BitWithCount = 3,
    UnsuitableValue = 4,
    SizeOutOfRange = 5,
    ShortOutput = 6,
    LongDirectory = 7,
    NoRowSize = 8,
    CutRow = 9,
    MoreFilesThanRoom = 10,
    UnknownFileType = 11,
    UnusableFileNumber = 12,
    UnusableTypeText = 13,
    FilesBeyondRoom = 14,
    UnusableDatalog = 15,
    Unsound = 16,
    ShortReplyMemory = 17,
    MalformedCommand = 18,
    NoSuchElement = 19,
    UnsuitableKind = 20,
    UnknownField = 21,
    NumberOutOfRange = 22,
    LongText = 23,
    ShortTextMemory = 24,
    ShortReply = 25,
    OffsetOutOfRange = 26,
    UnreadableReply = 27,
    NoSuchValue = 28,
    RetiredSeparator = 39,
}

impl Refusal {
    // The question's number.
    pub fn number(self) -> u8
        ensures { result ≡ number_of self }
    {
        self as u8
    }
}

// As the programs print it.
impl fmt::Display for Refusal {
    fn fmt<W: fmt::Write>(&self, f: &mut fmt::Formatter<W>) -> fmt::Result {
        write!(f, "refused {}", self.number())
    }
}

impl Error for Refusal {}
