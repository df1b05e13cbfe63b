// The forms of an address, each read from the whole tag.
#![tactic(auto)]

ghost use Rattle.std.specs.Prelude.{◌≡◌, true, false, drop};
ghost use Rattle.parser_spec.specs.Characters.{utf8};
ghost use Rattle.parser_spec.specs.Parts.{whole};
ghost use Rattle.address_spec.specs.Spelling.{separates, ct, lfbn, io, behind_st_a, sta, kept_of, status, bits, last_forms, form_of};

use address_spec::Address;
use file_type::FileType;
use parser::Cur;

const START: Cur = Cur { i: 0 };

// C and T: file, `:`, element, separator, name.
fn parse_ct(tag: &[u8]) -> Option<Address>
    ensures { result ≡ ct utf8 separates tag.now }
{
    let (file_type, c1) = address_phrases::ct_letter(START, tag)?;
    let (file_number, c2) = address_phrases::file_then(c1, tag, b':')?;
    let (element, sub) = address_timers::element_name(c2, tag)?;
    if 255 < element {
        return None;
    }
    Some(Address {
        file_type,
        file_number,
        element_number: element as u16,
        pos_number: None,
        sub_element: Some(sub),
        bit: true,
        element_count: 1,
        kept: tag.len(),
    })
}

// L, F, B and N: file, `:`, element, optional bit, count.
fn parse_lfbn(tag: &[u8]) -> Option<Address>
    ensures { result ≡ lfbn utf8 tag.now }
{
    let (file_type, c1) = address_phrases::lfbn_letter(START, tag)?;
    let (file_number, c2) = address_phrases::file_then(c1, tag, b':')?;
    let (element_number, c3) = c2.digits_in(tag, 3, 0, 255)?;
    let ((sub_element, element_count), c4) = address_phrases::bit_count(c3, tag)?;
    let address = Address {
        file_type,
        file_number,
        element_number,
        pos_number: None,
        sub_element,
        bit: sub_element.is_some(),
        element_count,
        kept: parser::find(tag, b'{'),
    };
    address_phrases::found(c4, tag, address)
}

// I and O: optional number, `:`, element, optional position, optional bit, count.
fn parse_io(tag: &[u8]) -> Option<Address>
    ensures { result ≡ io utf8 tag.now }
{
    let ((file_type, file_number), c1) = address_phrases::slot(START, tag)?;
    let (element_number, c2) = c1.digits_in(tag, 3, 0, 255)?;
    let (pos, c3) = address_phrases::optional_position(c2, tag)?;
    let ((sub, element_count), c4) = address_phrases::bit_count(c3, tag)?;
    let address = Address {
        file_type,
        file_number,
        element_number,
        pos_number: Some(pos),
        sub_element: Some(sub.unwrap_or(0)),
        bit: sub.is_some(),
        element_count,
        kept: parser::find(tag, b'{'),
    };
    address_phrases::found(c4, tag, address)
}

// ST or A behind its letters: file, `:`, element, count.
fn behind_st_a(c1: Cur, tag: &[u8], file_type: FileType, st: bool) -> Option<Address>
    ensures { result ≡ whole (behind_st_a st tag.now file_type) (drop c1.i tag.now) }
{
    let (file_number, c2) = address_phrases::file_then(c1, tag, b':')?;
    let (element_number, c3) = c2.digits_in(tag, 4, 0, 255)?;
    let (element_count, c4) = c3.count(tag, st)?;
    let address = Address {
        file_type,
        file_number,
        element_number,
        pos_number: None,
        sub_element: None,
        bit: false,
        element_count,
        kept: parser::find(tag, b'{'),
    };
    address_phrases::found(c4, tag, address)
}

// ST, or A. Its letters are asked here and not behind the call, so that a tag that begins with none of them pays for no call.
fn parse_st_a<const ST: bool>(tag: &[u8]) -> Option<Address>
    ensures { result ≡ sta utf8 ST tag.now }
{
    let (file_type, c1) = address_phrases::st_or_a(START, tag, ST)?;
    behind_st_a(c1, tag, file_type, ST)
}

// The length of the kept text of an S address.
fn kept_of(sub: Option<u16>, tag: &[u8]) -> usize
    ensures { result ≡ kept_of sub tag.now }
{
    match sub {
        None => parser::find(tag, b'{'),
        Some(_) => tag.len(),
    }
}

// S: `:`, element, optional bit, count.
fn parse_s(tag: &[u8]) -> Option<Address>
    ensures { result ≡ status utf8 tag.now }
{
    let c1 = parser_characters::letter(START, tag, b'S')?;
    let c2 = c1.eat(tag, b':')?;
    let (element_number, c3) = c2.digits_in(tag, 3, 0, 255)?;
    let ((sub_element, element_count), c4) = address_phrases::bit_count(c3, tag)?;
    let address = Address {
        file_type: FileType::S,
        file_number: 2,
        element_number,
        pos_number: None,
        sub_element,
        bit: sub_element.is_some(),
        element_count,
        kept: kept_of(sub_element, tag),
    };
    address_phrases::found(c4, tag, address)
}

// B: file, `/`, a bit counted across the whole file, count.
fn parse_b(tag: &[u8]) -> Option<Address>
    ensures { result ≡ bits utf8 tag.now }
{
    let c1 = parser_characters::letter(START, tag, b'B')?;
    let (file_number, c2) = address_phrases::file_then(c1, tag, b'/')?;
    let (bit, c3) = c2.digits_in(tag, 4, 0, 4095)?;
    let (element_count, c4) = c3.count(tag, false)?;
    let address = Address {
        file_type: FileType::B,
        file_number,
        element_number: bit / 16,
        pos_number: None,
        sub_element: Some(bit % 16),
        bit: true,
        element_count,
        kept: parser::find(tag, b'{'),
    };
    address_phrases::found(c4, tag, address)
}

// ST, A, S and B in turn.
#[tactic(auto, unfolding(address_spec::specs::Spelling::last_forms, address_spec::specs::Spelling::or_try))]
fn parse_last(tag: &[u8]) -> Option<Address>
    ensures { result ≡ last_forms utf8 tag.now }
{
    parse_st_a::<true>(tag)
        .or_else(|| parse_st_a::<false>(tag))
        .or_else(|| parse_s(tag))
        .or_else(|| parse_b(tag))
}

// The forms in turn.
#[tactic(auto, unfolding(address_spec::specs::Spelling::form_of, address_spec::specs::Spelling::or_try))]
pub fn parse_form(tag: &[u8]) -> Option<Address>
    ensures { result ≡ form_of utf8 separates tag.now }
{
    parse_ct(tag)
        .or_else(|| parse_lfbn(tag))
        .or_else(|| parse_io(tag))
        .or_else(|| parse_last(tag))
}
