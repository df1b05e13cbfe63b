// The parts of a request, each laid from a place on where there is room for the whole of it. The answer is the place behind it.
ghost use Rattle.std.specs.Prelude.{◌≡◌, ◌≤◌, length};
ghost use Rattle.base.specs.Put.{Puts};
ghost use Rattle.request_frame.specs.RequestFrame.{address_field, command_head, two_addresses, typed_length};

use crate::{Requestor, Target};

fn field_len(n: u16) -> usize
    ensures { (result ≡ length (address_field n)) × (result ≤ 3) }
{
    if 255 <= n { 3 } else { 1 }
}

pub fn typed_len(p: Target) -> usize
    ensures { result ≡ typed_length p }
{
    20 + field_len(p.file) + field_len(p.element) + field_len(p.sub)
}

// An address below 255 in one byte, any other as FF and a word.
pub fn address_field(out: &mut [u8], at: usize, n: u16) -> usize
    ensures { Puts out.old at (address_field n) result out.new }
{
    if n < 255 {
        return base::put_number(out, at, 1, u64::from(n));
    }
    let [low, high] = n.to_le_bytes();
    base::put_all(out, at, &[0xFF, low, high])
}

// All in front of the function byte: the execute service on its object, the requester, CMD, STS 0 and the sequence number.
pub fn command(out: &mut [u8], q: Requestor, cmd: u8, sequence: u16) -> usize
    ensures { Puts out.old 0 (command_head q cmd sequence) result out.new }
{
    let vid = q.vid;
    let vsn = q.vsn;
    let [low, high] = sequence.to_le_bytes();
    let head = [
        0x4B, 0x02, 0x20, 0x67, 0x24, 0x01, 0x07, vid[0], vid[1], vsn[0], vsn[1], vsn[2], vsn[3],
        cmd, 0x00, low, high,
    ];
    base::put_all(out, 0, &head)
}

// Function, size, file number, file type and element.
pub fn two_addresses(out: &mut [u8], at: usize, function: u8, size: u8, p: Target) -> usize
    ensures { Puts out.old at (two_addresses function size p) result out.new }
{
    let n = 3 + field_len(p.file) + field_len(p.element);
    if out.len() < at || out.len() - at < n {
        return at;
    }
    let a = base::put_all(out, at, &[function, size]);
    let b = address_field(out, a, p.file);
    let c = base::put_all(out, b, &[p.code]);
    address_field(out, c, p.element)
}
