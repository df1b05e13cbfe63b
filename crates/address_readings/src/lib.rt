// The two readings of a tag, and where the separator of a timer or counter stands.
#![tactic(auto)]

ghost use Rattle.std.specs.Prelude.{◌≡◌, length, ◌-◌};
ghost use Rattle.address_readings.specs.Readings.{plain, timed as readings_timed};
ghost use Rattle.address_readings.specs.Places.{name_length, plain_before};

use file_type::FileType;

// How a tag is read: as a new entry, or as one of a stored list.
#[derive(Clone, Copy, Debug, PartialEq, Eq)]
pub enum Reading {
    New,
    Stored,
}

// The types whose addresses have a separator.
pub fn timed(t: FileType) -> bool
    ensures { result ≡ readings_timed t }
{
    matches!(t, FileType::T | FileType::C)
}

// PRE and ACC have three letters, all other names two.
fn letters(sub: Option<u16>) -> usize
    ensures { result ≡ name_length sub }
{
    match sub {
        Some(1 | 2) => 3,
        _ => 2,
    }
}

// Where the name of this value begins, with which a tag ends.
pub fn name_start(tag: &[u8], sub: Option<u16>) -> usize
    ensures { result ≡ length tag.now - name_length sub }
{
    tag.len().saturating_sub(letters(sub))
}

fn is_plain(b: u8) -> bool
    ensures { result ≡ plain b }
{
    matches!(b, b'.' | b'/')
}

// Does a full stop or a slash end here? Every byte of a character above U+007F is above 127.
#[tactic(auto, unfolding(crate::specs::Places::plain_before))]
pub fn plain_before(tag: &[u8], end: usize) -> bool
    ensures { result ≡ plain_before tag.now end }
{
    0 < end && end <= tag.len() && is_plain(tag[end - 1])
}
