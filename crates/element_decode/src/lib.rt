// Values of the twelve file types from the bytes of one element.
#![tactic(auto)]

mod get;

ghost use Rattle.std.specs.Prelude.{length};
ghost use Rattle.element_spec.specs.Decode.{Reads, decoded};

use base::Refusal;
use element_spec::Element;
use element_spec::kind::{ElementKind, kind_of};
use element_whole::{signed_long, signed_word};
use file_type::FileType;

// Reads an element; text is written to the lent memory, which needs 82 bytes for it. A refusal changes nothing.
#[tactic(auto, using(element_spec::proofs::ByKind::size_least), unfolding(element_spec::specs::Decode::decoded))]
pub fn decode_element(t: FileType, element: &[u8], text: &mut [u8]) -> Result<Element, Refusal>
    ensures { Reads (decoded t element.now (length text.old)) text.old result text.new }
{
    if element.len() < t.element_size() {
        return Err(Refusal::NoSuchElement);
    }
    match kind_of(t) {
        ElementKind::Word => Ok(Element::Whole(i32::from(signed_word(base::word_at(element, 0))))),
        ElementKind::Long => Ok(Element::Whole(signed_long(base::long_at(element, 0)))),
        ElementKind::Float => Ok(Element::Float(base::long_at(element, 0))),
        ElementKind::Ascii => get::ascii(element, text),
        ElementKind::Line => get::line(element, text),
        ElementKind::Fields => Ok(get::fields(t, element)),
        ElementKind::Other => Err(Refusal::UnsuitableKind),
    }
}
