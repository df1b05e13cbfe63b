// Is a processor's state sound (question 16)? The file records as they were surveyed, the data memory, the type text and the datalog.
#![tactic(auto)]

ghost use Rattle.std.specs.Prelude.{◌≡◌, ◌&&◌, leb, take, drop};
ghost use Rattle.processor_spec.specs.State.{good_text, good_log};
ghost use Rattle.processor_spec.specs.Plain.{entries, holds};
ghost use Rattle.processor_soundness.specs.Sound.{sound_by};
ghost use Rattle.processor_soundness.specs.Tests.{largest as tests_largest, small, good_room};

use processor_spec::Slc;
use processor_table::Seen;

// The largest byte of a text.
fn largest(text: [u8; 11]) -> u8
    ensures { result ≡ tests_largest text }
{
    let mut most: u8 = 0;
    for b in &text {
        most = most.max(*b);
    }
    most
}

// Is each byte below 128?
#[tactic(auto, unfolding(crate::specs::Tests::small))]
fn all_small(text: &[u8]) -> bool
    ensures { result ≡ small text.now }
{
    text.iter().all(|b| *b < 128)
}

// Has the type text at most 11 bytes, each below 128 (question 13)? Mostly its array has no others, which the largest tells with no branch a byte.
pub fn good_text(text: [u8; 11], len: usize) -> bool
    ensures { result ≡ (leb len 11 && good_text (take len text)) }
{
    if 11 < len {
        return false;
    }
    if largest(text) < 128 {
        return true;
    }
    all_small(&text[..len])
}

// The room of the datalog entry at a place: its length word and its bytes. None where no entry of at most 255 bytes stands there.
fn entry_room(log: &[u8], at: usize) -> Option<usize>
    ensures { result ≡ good_room (drop at log.now) }
{
    if log.len() <= at {
        return None;
    }
    let room = 2 + usize::from(base::word_at(log, at));
    if log.len() - at < room {
        return None;
    }
    if 257 < room {
        return None;
    }
    Some(room)
}

// Does the datalog's memory hold so many entries from a place on, at most 64 of at most 255 bytes (question 15)?
pub fn good_log(log: &[u8], at: usize, left: usize) -> bool
    ensures { result ≡ (holds left (drop at log.now) && good_log (entries left (drop at log.now))) }
{
    if 64 < left {
        return false;
    }
    let mut place = at;
    for _i in 0..left {
        let Some(room) = entry_room(log, place) else {
            return false;
        };
        place += room;
    }
    true
}

// Are the records sound, as the survey tells, does a data memory of this length hold their files, and are type text and datalog good?
#[tactic(auto, unfolding(crate::specs::Sound::sound_by, crate::specs::Sound::good_log_by))]
pub fn sound(slc: Slc, s: Seen, memory: usize, log: &[u8]) -> bool
    ensures { result ≡ sound_by slc s memory log.now }
{
    s.sound
        && usize::from(s.total) <= memory
        && good_text(slc.type_text, slc.type_len)
        && good_log(log, slc.log_at, slc.log_left)
}
