// Text into the bytes of an element.
#![tactic(auto)]

ghost use Rattle.element_spec.specs.Encode.{Stores, of_bytes, ascii_of, line_of};

use base::Refusal;

// Text of A.
pub fn put_ascii(text: &[u8], element: &mut [u8]) -> Result<(), Refusal>
    ensures { Stores (of_bytes 2 element.old (ascii_of text.now)) element.old result element.new }
{
    if element.len() < 2 {
        return Err(Refusal::NoSuchElement);
    }
    let bytes = element_text::encode_pccc_ascii(text);
    base::put_all(element, 0, &bytes);
    Ok(())
}

// Text of ST.
pub fn put_line(text: &[u8], element: &mut [u8]) -> Result<(), Refusal>
    ensures { Stores (of_bytes 84 element.old (line_of text.now)) element.old result element.new }
{
    if element.len() < 84 {
        return Err(Refusal::NoSuchElement);
    }
    if 82 < text.len() {
        return Err(Refusal::LongText);
    }
    let bytes = element_text::encode_pccc_string(text);
    base::put_all(element, 0, &bytes);
    Ok(())
}
