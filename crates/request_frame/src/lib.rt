// The frame of a request: who asks, the command, the sequence number; and the manual's typed logical layouts.
#![tactic(auto)]

pub mod put;

ghost use Rattle.std.specs.Prelude.{◌≡◌, length};
ghost use Rattle.base.specs.Put.{Puts};
ghost use Rattle.request_frame.specs.RequestFrame.{default_requestor, typed, typed_length};

// Who asks: two vendor bytes and four serial bytes, as sent.
#[repr(C)]
#[derive(Clone, Copy)]
pub struct Requestor {
    pub vid: [u8; 2],
    pub vsn: [u8; 4],
}

// Where a typed logical command points: file number, type code, element, sub-element.
#[derive(Clone, Copy)]
pub struct Target {
    pub file: u16,
    pub code: u8,
    pub element: u16,
    pub sub: u16,
}

impl Requestor {
    // The default requester.
    pub fn default() -> Self
        ensures { result ≡ default_requestor }
    {
        Requestor {
            vid: [0x09, 0x10],
            vsn: [0x09, 0x10, 0x19, 0x71],
        }
    }
}

// A typed logical command with three address fields, from the start of `out`, where there is room for it. The answer is its length, or 0.
pub fn put_typed(
    out: &mut [u8],
    q: Requestor,
    sequence: u16,
    function: u8,
    size: u8,
    p: Target,
) -> usize
    ensures puts { Puts out.old 0 (typed q sequence function size p) result out.new }
    ensures p_len { length (typed q sequence function size p) ≡ typed_length p }
{
    if out.len() < put::typed_len(p) {
        return 0;
    }
    let a = put::command(out, q, 0x0F, sequence);
    let b = put::two_addresses(out, a, function, size, p);
    put::address_field(out, b, p.sub)
}
