// Questions 4 and 5 of a write, its last address field, and its mask word and data in lent memory.
#![tactic(auto)]

ghost use Rattle.std.specs.Prelude.{◌≡◌, false, length};
ghost use Rattle.base.specs.Put.{Puts};
ghost use Rattle.request_spec.specs.SizeAnswers.{data_size_of};
ghost use Rattle.request_spec.specs.Request.{preset_or_accum, bit_suits, text_suits, suits as request_suits, last_address, is_ascii, bit_data, text_data, supplied};

use address_spec::Address;
use file_type::FileType;
use request_spec::WriteValue;

// Is it PRE or ACC of a timer or counter?
#[tactic(auto, unfolding(request_spec::specs::Request::preset_or_accum))]
fn preset_or_accum(x: Address) -> bool
    ensures { result ≡ preset_or_accum x }
{
    matches!(x.file_type, FileType::T | FileType::C) && matches!(x.sub_element, Some(1 | 2))
}

#[tactic(auto, unfolding(request_spec::specs::Request::bit_suits))]
fn bit_suits(x: Address) -> bool
    ensures { result ≡ bit_suits x }
{
    x.bit && !preset_or_accum(x)
}

fn is_ascii(x: Address) -> bool
    ensures { result ≡ is_ascii x }
{
    x.file_type == FileType::A
}

#[tactic(auto, unfolding(request_spec::specs::Request::text_suits))]
fn text_suits(x: Address) -> bool
    ensures { result ≡ text_suits x }
{
    matches!(x.file_type, FileType::A | FileType::ST) && x.element_count <= 1
}

#[tactic(auto, unfolding(request_spec::specs::Request::suits))]
pub fn suits(v: WriteValue, x: Address) -> bool
    ensures { result ≡ request_suits v x }
{
    match v {
        WriteValue::Raw => true,
        WriteValue::Bool(_) => bit_suits(x),
        WriteValue::Text => text_suits(x),
    }
}

#[tactic(auto, unfolding(request_spec::specs::Request::last_address))]
pub fn last_address(x: Address) -> u16
    ensures { result ≡ last_address x }
{
    let last = if preset_or_accum(x) {
        x.sub_element
    } else {
        x.pos_number
    };
    last.unwrap_or(0)
}

#[tactic(auto, using(request_spec::proofs::Supplied::bit_length, request_spec::proofs::Supplied::text_length), unfolding(request_spec::specs::Request::supplied))]
fn supplied_length(v: WriteValue, bytes: &[u8], x: Address) -> usize
    ensures { result ≡ length (supplied v bytes.now x) }
{
    match v {
        WriteValue::Raw => bytes.len(),
        WriteValue::Bool(_) => 4,
        WriteValue::Text => { if is_ascii(x) { 4 } else { 86 } }
    }
}

// The data without the mask, where mask and data have 2 to 257 bytes.
pub fn size(v: WriteValue, bytes: &[u8], x: Address) -> Option<u8>
    ensures { result ≡ data_size_of (length (supplied v bytes.now x)) }
{
    let n = supplied_length(v, bytes, x).checked_sub(2)?;
    u8::try_from(n).ok()
}

fn put_bit(out: &mut [u8], at: usize, n: u16, b: bool) -> usize
    ensures { Puts out.old at (bit_data n b) result out.new }
{
    let mask = base::bit_mask(usize::from(n));
    let [low, high] = mask.to_le_bytes();
    if b {
        return base::put_all(out, at, &[low, high, low, high]);
    }
    base::put_all(out, at, &[low, high, 0, 0])
}

fn put_text(out: &mut [u8], at: usize, ascii: bool, text: &[u8]) -> usize
    ensures { Puts out.old at (text_data ascii text.now) result out.new }
{
    if ascii {
        let two = element_text::encode_pccc_ascii(text);
        return base::put_all(out, at, &[0xFF, 0xFF, two[0], two[1]]);
    }
    put_string(out, at, text)
}

fn put_string(out: &mut [u8], at: usize, text: &[u8]) -> usize
    ensures { Puts out.old at (text_data false text.now) result out.new }
{
    if out.len() < at || out.len() - at < 86 {
        return at;
    }
    let line = element_text::encode_pccc_string(text);
    let a = base::put_all(out, at, &[0xFF, 0xFF]);
    base::put_all(out, a, &line)
}

// Mask word and data, as the value supplies them.
#[tactic(auto, unfolding(request_spec::specs::Request::supplied))]
pub fn put_data(out: &mut [u8], at: usize, v: WriteValue, bytes: &[u8], x: Address) -> usize
    ensures { Puts out.old at (supplied v bytes.now x) result out.new }
{
    match v {
        WriteValue::Raw => base::put_all(out, at, bytes),
        WriteValue::Bool(b) => put_bit(out, at, x.sub_element.unwrap_or(0), b),
        WriteValue::Text => put_text(out, at, is_ascii(x), bytes),
    }
}
