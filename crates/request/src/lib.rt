// Requests that read and write what an address text names.
#![tactic(auto)]

ghost use Rattle.std.specs.Prelude.{◌≡◌};
ghost use Rattle.request_spec.specs.Request.{Builds, reading as request_reading, writing};

use address::{Address, Reading};
use base::Refusal;
use request_frame::Requestor;
pub use request_spec::{WriteValue, bit_and_count};

// The message that reads what a tag names: the address, and how many bytes it has.
#[tactic(auto, unfolding(request_spec::specs::Request::on_address, request_spec::specs::Request::read_address))]
pub fn read_request(
    tag: &[u8],
    reading: Reading,
    q: Requestor,
    sequence: u16,
    out: &mut [u8],
) -> Result<(Address, usize), Refusal>
    ensures { Builds (request_reading tag.now reading q sequence out.old) out.old result out.new }
{
    let x = address::parse_tag(tag, reading)?;
    if request_spec::bit_and_count(x) {
        return Err(Refusal::BitWithCount);
    }
    let size = request_spec::read_size(x).ok_or(Refusal::SizeOutOfRange)?;
    if out.len() < 27 {
        return Err(Refusal::ShortOutput);
    }
    let p = request_spec::place(x, x.pos_number.unwrap_or(0));
    let n = request_frame::put_typed(out, q, sequence, 0xA2, size, p);
    Ok((x, n))
}

// The message that writes a value to what a tag names; `bytes` are the raw bytes (mask word and data) or the text.
#[tactic(auto, unfolding(request_spec::specs::Request::on_address, request_spec::specs::Request::write_address, request_spec::specs::Request::write_data))]
pub fn write_request(
    tag: &[u8],
    reading: Reading,
    v: WriteValue,
    bytes: &[u8],
    q: Requestor,
    sequence: u16,
    out: &mut [u8],
) -> Result<(Address, usize), Refusal>
    ensures { Builds (writing tag.now reading v bytes.now q sequence out.old) out.old result out.new }
{
    let x = address::parse_tag(tag, reading)?;
    if request_spec::bit_and_count(x) {
        return Err(Refusal::BitWithCount);
    }
    if !request_write::suits(v, x) {
        return Err(Refusal::UnsuitableValue);
    }
    let size = request_write::size(v, bytes, x).ok_or(Refusal::SizeOutOfRange)?;
    if out.len() < 284 {
        return Err(Refusal::ShortOutput);
    }
    let p = request_spec::place(x, request_write::last_address(x));
    let n = request_frame::put_typed(out, q, sequence, 0xAB, size, p);
    let m = request_write::put_data(out, n, v, bytes, x);
    Ok((x, m))
}
