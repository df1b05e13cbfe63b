// The text of an accepted address with a timer's or counter's separator replaced by a full stop.
#![tactic(auto)]

ghost use Rattle.std.specs.Prelude.{◌≡◌, length, ◌≤◌};
ghost use Rattle.base.specs.Put.{Wrote};
ghost use Rattle.address_readings.specs.Places.{separator_start, replaced, dotted_by};
ghost use Rattle.address_dotted.specs.DottedAnswers.{dotting, Dots};

use address::Reading;
use base::Refusal;
use file_type::FileType;

// Where the separator begins that ends at this place: all bytes above 127 before it, or one byte.
fn separator_start(tag: &[u8], end: usize) -> usize
    requires { end ≤ length tag.now }
    ensures { result ≡ separator_start tag.now end }
{
    let mut start = end;
    while 0 < start && 128 <= tag[start - 1] {
        start -= 1;
    }
    start.min(end.saturating_sub(1))
}

// The tag with a full stop for the separator that ends at this place.
fn put_replaced(tag: &[u8], end: usize, out: &mut [u8]) -> usize
    requires { (end ≤ length tag.now) × (length (replaced tag.now end) ≤ length out.old) }
    ensures { Wrote out.old 0 (replaced tag.now end) result out.new }
{
    let start = separator_start(tag, end);
    let a = base::put_all(out, 0, &tag[..start]);
    let b = base::put_all(out, a, b".");
    base::put_all(out, b, &tag[end..])
}

// The text of an address of this type and name.
fn put_dotted(tag: &[u8], t: FileType, sub: Option<u16>, out: &mut [u8]) -> usize
    requires { length (dotted_by tag.now t sub) ≤ length out.old }
    ensures { Wrote out.old 0 (dotted_by tag.now t sub) result out.new }
{
    if !address_readings::timed(t) {
        return base::put_all(out, 0, tag);
    }
    let end = address_readings::name_start(tag, sub);
    put_replaced(tag, end, out)
}

// The text of the address that a tag of a stored list spells, and how many bytes it has.
#[tactic(auto, unfolding(crate::specs::DottedAnswers::asked, address_readings::specs::Readings::address_in))]
pub fn dotted(tag: &[u8], out: &mut [u8]) -> Result<usize, Refusal>
    ensures { Dots (dotting tag.now out.old) out.old result out.new }
{
    let x = address::parse_tag(tag, Reading::Stored)?;
    if out.len() < 255 {
        return Err(Refusal::ShortOutput);
    }
    Ok(put_dotted(tag, x.file_type, x.sub_element, out))
}
