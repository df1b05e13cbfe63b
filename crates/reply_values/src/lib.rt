// Values from the data of a read reply: what stands behind the reply's head.
#![tactic(auto)]

ghost use Rattle.std.specs.Prelude.{◌≡◌, ◌&&◌, cond, map, eqb, ◌≤◌, length};
ghost use Rattle.address_readings.specs.Readings.{address_in};
ghost use Rattle.reply_values_spec.specs.Values.{Reads, asked, on_address, decoded, at_least_one, collect, parts, slice, values_of, values, word_place};

use address::{Address, Reading};
use base::Refusal;
use file_type::FileType;
use reply_values_spec::DataType;
pub use reply_values_spec::ReplyValue;

// The value with this index of those in parts of so many bytes: by the last part, for those before it are whole.
fn of_parts(
    k: DataType,
    size: usize,
    bytes: &[u8],
    index: usize,
    out: &mut [u8],
) -> Result<(ReplyValue, usize), Refusal>
    requires { (1 ≤ size) × (size ≤ 84) }
    ensures { Reads (asked index (length out.old) (at_least_one (collect (map (decoded k) (parts size bytes.now))))) out.old result out.new }
{
    let n = bytes.len();
    if n == 0 {
        return Err(Refusal::UnreadableReply);
    }
    let last = (n - 1) / size;
    let rest = (n - 1) % size + 1;
    if rest < reply_values_spec::least(k) {
        return Err(Refusal::UnreadableReply);
    }
    if last < index {
        return Err(Refusal::NoSuchValue);
    }
    let part = reply_element::part(bytes, index * size, size);
    reply_element::of_part(k, part, last + 1, out)
}

// Where the word of PRE or ACC of a timer or counter begins; 0 for a bit.
fn word_place(t: FileType, sub: u16) -> usize
    ensures { result ≡ word_place t sub }
{
    if !address_readings::timed(t) {
        return 0;
    }
    match sub {
        1 => 2,
        2 => 4,
        _ => 0,
    }
}

// Is a bit asked, and not PRE or ACC?
fn is_bit(t: FileType, bit: bool, sub: u16) -> bool
    ensures { result ≡ (bit && eqb (word_place t sub) 0) }
{
    bit && word_place(t, sub) == 0
}

// The bytes whose values are asked, where no bit is: those of PRE or ACC, or all.
fn asked_bytes(t: FileType, bit: bool, sub: u16, bytes: &[u8]) -> &[u8]
    ensures { result.now ≡ cond bit (slice (word_place t sub) t bytes.now) bytes.now }
{
    if bit {
        return reply_element::part(bytes, word_place(t, sub), t.element_size());
    }
    bytes
}

// A value by the type, the bit flag and the sub-element of an address, which are all that is looked at. Refused with 27, 28 and 24.
pub fn parse_typed(
    t: FileType,
    bit: bool,
    sub: u16,
    bytes: &[u8],
    index: usize,
    out: &mut [u8],
) -> Result<(ReplyValue, usize), Refusal>
    ensures { Reads (asked index (length out.old) (values_of t bit sub bytes.now)) out.old result out.new }
{
    let k = reply_values_spec::data_type(t);
    let size = t.element_size();
    if is_bit(t, bit, sub) {
        let part = reply_element::part(bytes, 0, size);
        return reply_element::bit::of_part(k, part, sub, index);
    }
    of_parts(k, size, asked_bytes(t, bit, sub, bytes), index, out)
}

// The value with this index, from 0, of the data of a read reply; `out` needs 82 bytes for a text. Refused with 27, 28 and 24.
pub fn parse_read_data(
    x: Address,
    bytes: &[u8],
    index: usize,
    out: &mut [u8],
) -> Result<(ReplyValue, usize), Refusal>
    ensures { Reads (asked index (length out.old) (values x bytes.now)) out.old result out.new }
{
    let sub = x.sub_element.unwrap_or(0);
    parse_typed(x.file_type, x.bit, sub, bytes, index, out)
}

// The same by the tag that was read. Refused with 1, 2, 39 (a new entry only), 27, 28 and 24.
pub fn parse_read_reply(
    tag: &[u8],
    reading: Reading,
    bytes: &[u8],
    index: usize,
    out: &mut [u8],
) -> Result<(ReplyValue, usize), Refusal>
    ensures { Reads (on_address (address_in reading tag.now) bytes.now index (length out.old)) out.old result out.new }
{
    let x = address::parse_tag(tag, reading)?;
    parse_read_data(x, bytes, index, out)
}
