// The readings of a tag and the kinds of a write, by number.
ghost use Rattle.std.specs.Prelude.{◌≡◌};
ghost use Rattle.request_spec.specs.Request.{request_of};
ghost use Rattle.link_requests.specs.Kinds.{reading_of, kind_of, unsuited as kinds_unsuited};

use address::{Address, Reading};
use base::Refusal;
use request::WriteValue;

// A stored list's is 1. Every other number is a new entry, which takes nothing that a stored list doesn't.
#[tactic(auto, unfolding(crate::specs::Kinds::reading_of))]
pub fn reading_of(reading: u8) -> Reading
    ensures { result ≡ reading_of reading }
{
    match reading {
        1 => Reading::Stored,
        _ => Reading::New,
    }
}

// Raw bytes, false, true and Latin-1 text are 0 to 3.
#[tactic(auto, unfolding(crate::specs::Kinds::kind_of))]
pub fn kind_of(kind: u8) -> Option<WriteValue>
    ensures { result ≡ kind_of kind }
{
    match kind {
        0 => Some(WriteValue::Raw),
        1 => Some(WriteValue::Bool(false)),
        2 => Some(WriteValue::Bool(true)),
        3 => Some(WriteValue::Text),
        _ => None,
    }
}

// The answer to a write of a kind that there is not: it suits no address. Refused with 1, 2, 39 (a new entry only), 3 and 4.
#[tactic(auto, unfolding(request_spec::specs::Request::on_address, crate::specs::Kinds::unsuited_address))]
pub fn unsuited(tag: &[u8], reading: Reading) -> Result<(Address, usize), Refusal>
    ensures { result ≡ request_of (kinds_unsuited tag.now reading) }
{
    let x = address::parse_tag(tag, reading)?;
    if request::bit_and_count(x) {
        return Err(Refusal::BitWithCount);
    }
    Err(Refusal::UnsuitableValue)
}
