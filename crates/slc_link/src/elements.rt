// The bytes of one element.
ghost use Rattle.std.specs.Prelude.{length};
ghost use Rattle.file_type.specs.Table.{of_code};
ghost use Rattle.link_elements.specs.ElementRecords.{StoresInNumbers, ReadsInNumbers, encoded_in, decoded_in};

use base::Refusal;
use file_type::FileType;
use link_elements::{SlcElement, SlcValue};

// Sets an element; `text` is the text of A and ST, or the name of the field. 19 to 23 where it is refused.
#[unsafe(no_mangle)]
pub extern "C" fn slc_encode_element(
    code: u8,
    value: SlcValue,
    text: &[u8],
    element: &mut [u8],
) -> u8
    ensures { StoresInNumbers (encoded_in (of_code code) value text.now element.old) element.old result element.new }
{
    match FileType::from_code(code) {
        Some(t) => link_elements::encode_element(t, value, text, element),
        None => link_elements::stored_number(Err(Refusal::NoSuchElement)),
    }
}

// Reads an element; text is written to the lent memory, which needs 82 bytes for it. 19, 20 or 24 where it is refused.
#[unsafe(no_mangle)]
pub extern "C" fn slc_decode_element(code: u8, element: &[u8], text: &mut [u8]) -> SlcElement
    ensures { ReadsInNumbers (decoded_in (of_code code) element.now (length text.old)) text.old result text.new }
{
    match FileType::from_code(code) {
        Some(t) => link_elements::decode_element(t, element, text),
        None => link_elements::numbers_of(Err(Refusal::NoSuchElement)),
    }
}
