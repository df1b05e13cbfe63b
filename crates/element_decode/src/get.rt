// Values from the bytes of an element.
ghost use Rattle.std.specs.Prelude.{◌≡◌, ◌-◌, ◌^◌, ◌≤◌, min, length, take, drop};
ghost use Rattle.element_text.specs.Text.{swap_pairs};
ghost use Rattle.element_spec.specs.Decode.{Reads, text_in, word_at, named_bits};
ghost use Rattle.element_whole.specs.Whole.{signed};

use base::Refusal;
use element_spec::Element;
use element_whole::signed_word;
use file_type::FileType;

// All bits of a word below this one. A type without named bits asks for 16, which has no mask: the whole word.
fn bits_below(b: usize) -> u16
    requires { b ≤ 16 }
    ensures { result ≡ 2 ^ b - 1 }
{
    if b < 16 {
        base::bit_mask(b) - 1
    } else {
        0xFFFF
    }
}

// Word 0 with the bits that have no name cleared.
fn named_bits(t: FileType, w: u16) -> u16
    ensures { result ≡ named_bits t w }
{
    let unnamed = 16 - file_type_fields::bits(t);
    w - (w & bits_below(unnamed))
}

pub fn fields(t: FileType, element: &[u8]) -> Element
    ensures { result ≡ Element.Fields (signed 0xFFFF (word_at 2 element.now)) (signed 0xFFFF (word_at 4 element.now)) (named_bits t (word_at 0 element.now)) }
{
    let first = signed_word(base::word_at(element, 2));
    let second = signed_word(base::word_at(element, 4));
    Element::Fields(first, second, named_bits(t, base::word_at(element, 0)))
}

// Text into the lent memory, which needs 82 bytes for it.
fn put_text(s: &[u8], text: &mut [u8]) -> Result<Element, Refusal>
    requires { length s.now ≤ 82 }
    ensures { Reads (text_in (length text.old) s.now) text.old result text.new }
{
    if text.len() < 82 {
        return Err(Refusal::ShortTextMemory);
    }
    base::put_all(text, 0, s);
    Ok(Element::Text(s.len()))
}

pub fn ascii(element: &[u8], text: &mut [u8]) -> Result<Element, Refusal>
    requires { 2 ≤ length element.now }
    ensures { Reads (text_in (length text.old) (swap_pairs (take 2 element.now))) text.old result text.new }
{
    put_text(&[element[1], element[0]], text)
}

// The 82 characters of an ST element, in their order.
fn characters(element: &[u8]) -> [u8; 82]
    requires { 84 ≤ length element.now }
    ensures { result ≡ swap_pairs (take 82 (drop 2 element.now)) }
{
    let mut pairs = [0u8; 82];
    pairs.copy_from_slice(&element[2..84]);
    element_text::swap_pairs(&mut pairs);
    pairs
}

pub fn line(element: &[u8], text: &mut [u8]) -> Result<Element, Refusal>
    requires { 84 ≤ length element.now }
    ensures { Reads (text_in (length text.old) (take (min 82 (word_at 0 element.now)) (swap_pairs (take 82 (drop 2 element.now))))) text.old result text.new }
{
    let n = usize::from(base::word_at(element, 0)).min(82);
    put_text(&characters(element)[..n], text)
}
