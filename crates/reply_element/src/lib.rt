// The value of one element's bytes, and a bit of it.
#![tactic(auto)]

pub mod bit;

ghost use Rattle.std.specs.Prelude.{◌≡◌, ◌+◌, ◌%◌, ◌≤◌, length, take, drop};
ghost use Rattle.base.specs.Numbers.{number};
ghost use Rattle.base.specs.Put.{Wrote};
ghost use Rattle.element_text.specs.Text.{padded_swap};
ghost use Rattle.reply_values_spec.specs.Values.{Reads, text, in_room, one_part, value_of};

use base::Refusal;
use reply_values_spec::{DataType, ReplyValue};

// The bytes from a place on, so many where they are there.
pub fn part(bytes: &[u8], at: usize, size: usize) -> &[u8]
    ensures { result.now ≡ take size (drop at bytes.now) }
{
    let rest = &bytes[at.min(bytes.len())..];
    &rest[..size.min(rest.len())]
}

// The bytes with each pair swapped, in memory that has room for them. The answer is how many were laid.
fn swap_into(bytes: &[u8], out: &mut [u8]) -> usize
    requires { length bytes.now + length bytes.now % 2 ≤ length out.old }
    ensures { Wrote out.old 0 (padded_swap bytes.now) result out.new }
{
    element_text::slc_string_swap(bytes, out).unwrap_or(0)
}

// Text of A: two characters, a lone one behind a NUL.
fn ascii(element: &[u8], count: usize, out: &mut [u8]) -> Result<(ReplyValue, usize), Refusal>
    ensures { Reads (in_room (length out.old) count (text (padded_swap (take 2 element.now)))) out.old result out.new }
{
    if out.len() < 82 {
        return Err(Refusal::ShortTextMemory);
    }
    let n = swap_into(part(element, 0, 2), out);
    Ok((ReplyValue::Text(n), count))
}

// Text of ST: cut to its length word and to what is there.
fn line(element: &[u8], count: usize, out: &mut [u8]) -> Result<(ReplyValue, usize), Refusal>
    ensures { Reads (in_room (length out.old) count (text (take (number (take 2 element.now)) (padded_swap (take 82 (drop 2 element.now)))))) out.old result out.new }
{
    if out.len() < 82 {
        return Err(Refusal::ShortTextMemory);
    }
    let mut pairs = [0u8; 82];
    let there = swap_into(part(element, 2, 82), &mut pairs);
    let n = usize::from(base::word_at(element, 0)).min(there);
    base::put_all(out, 0, &pairs[..n]);
    Ok((ReplyValue::Text(n), count))
}

// The value of a part, one of so many; whether it has enough bytes is asked before.
pub fn of_part(
    k: DataType,
    part: &[u8],
    count: usize,
    out: &mut [u8],
) -> Result<(ReplyValue, usize), Refusal>
    ensures { Reads (one_part (length out.old) count (value_of k part.now)) out.old result out.new }
{
    match k {
        DataType::Int => {
            let word = element_whole::signed_word(base::word_at(part, 0));
            Ok((ReplyValue::Word(word), count))
        }
        DataType::DInt => {
            let long = element_whole::signed_long(base::long_at(part, 0));
            Ok((ReplyValue::Long(long), count))
        }
        DataType::Real => Ok((ReplyValue::Float(base::long_at(part, 0)), count)),
        DataType::Ascii => ascii(part, count, out),
        DataType::Line => line(part, count, out),
        DataType::No => Err(Refusal::UnreadableReply),
    }
}
