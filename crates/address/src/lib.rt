// The address reader: a tag's text to the file, element, position, bit and count that it names.
#![tactic(auto)]

ghost use Rattle.std.specs.Prelude.{◌≡◌};
ghost use Rattle.address_spec.specs.Spelling.{address_of};
ghost use Rattle.address_readings.specs.Readings.{address_in};
ghost use Rattle.address_readings.specs.Places.{retired_by};

pub use address_readings::Reading;
pub use address_spec::Address;
use base::Refusal;
use file_type::FileType;

// Is an address that was read of this tag one of a timer or counter with another separator than a full stop or a slash?
#[tactic(auto, unfolding(address_readings::specs::Places::retired_by))]
fn is_retired(tag: &[u8], t: FileType, sub: Option<u16>) -> bool
    ensures { result ≡ retired_by tag.now t sub }
{
    let end = address_readings::name_start(tag, sub);
    address_readings::timed(t) && !address_readings::plain_before(tag, end)
}

// The address that a tag of a stored list spells.
#[tactic(auto, unfolding(address_spec::specs::Spelling::address_of))]
fn stored(tag: &[u8]) -> Result<Address, Refusal>
    ensures { result ≡ address_of tag.now }
{
    if 255 < tag.len() || !parser_characters::is_well_formed(tag) {
        return Err(Refusal::MalformedTag);
    }
    address_forms::parse_form(tag).ok_or(Refusal::NotAnAddress)
}

// The address that a tag spells, read as a new entry or as one of a stored list.
#[tactic(auto, using(address_readings::proofs::ReadingAnswers::refused_in))]
pub fn parse_tag(tag: &[u8], reading: Reading) -> Result<Address, Refusal>
    ensures { result ≡ address_in reading tag.now }
{
    let a = stored(tag)?;
    match reading {
        Reading::New if is_retired(tag, a.file_type, a.sub_element) => {
            Err(Refusal::RetiredSeparator)
        }
        _ => Ok(a),
    }
}
