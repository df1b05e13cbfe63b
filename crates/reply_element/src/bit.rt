// A bit of a word or a long, which needs no output.
ghost use Rattle.std.specs.Prelude.{◌≡◌, [], ◌∷◌};
ghost use Rattle.reply_values_spec.specs.Values.{asked, alone, decoded, reply_of, bit_at, bit_of, bit};

use base::Refusal;
use reply_values_spec::{DataType, ReplyValue};

// The bit at `idx` of a number in two's complement; past its highest one that of its sign.
pub fn get_bit(value: i64, idx: u32) -> bool
    ensures { result ≡ bit_at idx value }
{
    let p = element_whole::apart(value);
    let n = idx.min(63);
    let one = (p.size >> n) % 2 == 1;
    if p.negative { !one } else { one }
}

// The only value.
fn only(value: i64, sub: u16, index: usize) -> Result<(ReplyValue, usize), Refusal>
    ensures { result ≡ reply_of (asked index 0 (Some (bit (bit_at sub value) ∷ []))) }
{
    if 0 < index {
        return Err(Refusal::NoSuchValue);
    }
    Ok((ReplyValue::Bit(get_bit(value, u32::from(sub))), 1))
}

// A bit of the number that a part begins with; floats and text have none.
pub fn of_part(
    k: DataType,
    part: &[u8],
    sub: u16,
    index: usize,
) -> Result<(ReplyValue, usize), Refusal>
    ensures { result ≡ reply_of (asked index 0 (alone (bit_of sub (decoded k part.now)))) }
{
    if part.len() < reply_values_spec::least(k) {
        return Err(Refusal::UnreadableReply);
    }
    match k {
        DataType::Int => {
            let word = element_whole::signed_word(base::word_at(part, 0));
            only(i64::from(word), sub, index)
        }
        DataType::DInt => {
            let long = element_whole::signed_long(base::long_at(part, 0));
            only(i64::from(long), sub, index)
        }
        DataType::Real | DataType::Ascii | DataType::Line | DataType::No => {
            Err(Refusal::UnreadableReply)
        }
    }
}
