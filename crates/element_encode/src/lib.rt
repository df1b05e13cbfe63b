// Values of the twelve file types into the bytes of one element.
#![tactic(auto)]

mod set;

ghost use Rattle.element_spec.specs.Encode.{Stores, encoded};

use base::Refusal;
use element_spec::Value;
use element_spec::kind::{ElementKind, kind_of};
use element_whole::{LONG, WORD};
use file_type::FileType;

// Sets an element from a value; `text` is the text of A and ST, or the name of the field. A refusal changes nothing.
#[tactic(auto, using(element_spec::proofs::ByKind::size_least), unfolding(element_spec::specs::Encode::encoded))]
pub fn encode_element(t: FileType, v: Value, text: &[u8], element: &mut [u8]) -> Result<(), Refusal>
    ensures { Stores (encoded t v text.now element.old) element.old result element.new }
{
    if element.len() < t.element_size() {
        return Err(Refusal::NoSuchElement);
    }
    match (kind_of(t), v) {
        (ElementKind::Word, Value::Whole(n)) => element_set_field::put_whole(WORD, n, element, 0),
        (ElementKind::Long, Value::Whole(n)) => element_set_field::put_whole(LONG, n, element, 0),
        (ElementKind::Float, Value::Float(bits)) => {
            set::float(bits, element);
            Ok(())
        }
        (ElementKind::Ascii, Value::Text) => element_set_text::put_ascii(text, element),
        (ElementKind::Line, Value::Text) => element_set_text::put_line(text, element),
        (ElementKind::Fields, Value::Words(x, y, z)) => set::words(x, y, z, element),
        (ElementKind::Fields, Value::Field(n)) => {
            element_set_field::put_named(t, text, n, element)
        }
        _ => Err(Refusal::UnsuitableKind),
    }
}
