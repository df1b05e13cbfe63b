// The parameters of a command, the bytes behind its function byte: a reader whose place moves.
#![tactic(auto)]

ghost use Rattle.std.specs.Prelude.{◌≡◌};
ghost use Rattle.processor_params.specs.Take.{byte_at, address_at, taken, took};
ghost use Rattle.processor_params.specs.Header.{header_of};

// The place in the parameters. The bytes are passed beside it.
#[derive(Clone, Copy)]
pub struct Params {
    pub pos: usize,
}

// What stands in front of each access, and the place behind it.
#[derive(Clone, Copy)]
pub struct Header {
    pub size: u8,
    pub file: u16,
    pub code: u8,
    pub element: u16,
    pub next: usize,
}

// The byte at a place, and the place behind it.
pub fn byte_at(bytes: &[u8], pos: usize) -> Option<(u8, usize)>
    ensures { result ≡ byte_at bytes.now pos }
{
    if bytes.len() <= pos {
        return None;
    }
    Some((bytes[pos], pos + 1))
}

// The address at a place, where a whole one stands there, and the place behind it.
pub fn address_at(bytes: &[u8], pos: usize) -> Option<(u16, usize)>
    ensures { result ≡ address_at bytes.now pos }
{
    let (b, next) = byte_at(bytes, pos)?;
    if b != 0xFF {
        return Some((u16::from(b), next));
    }
    if bytes.len() - next < 2 {
        return None;
    }
    Some((base::word_at(bytes, next), next + 2))
}

impl Params {
    // Takes a byte: the place moves behind it.
    pub fn take_byte(&mut self, bytes: &[u8]) -> Option<u8>
        ensures { took result self.new ≡ taken self.old.pos (byte_at bytes.now self.old.pos) }
    {
        let (b, next) = byte_at(bytes, self.pos)?;
        self.pos = next;
        Some(b)
    }

    // Takes an address: the place moves behind it.
    pub fn take_address(&mut self, bytes: &[u8]) -> Option<u16>
        ensures { took result self.new ≡ taken self.old.pos (address_at bytes.now self.old.pos) }
    {
        let (a, next) = address_at(bytes, self.pos)?;
        self.pos = next;
        Some(a)
    }
}

// Size, file, type and element, in this order.
pub fn read_header(bytes: &[u8]) -> Option<Header>
    ensures { result ≡ header_of bytes.now }
{
    let mut p = Params { pos: 0 };
    let size = p.take_byte(bytes)?;
    let file = p.take_address(bytes)?;
    let code = p.take_byte(bytes)?;
    let element = p.take_address(bytes)?;
    Some(Header {
        size,
        file,
        code,
        element,
        next: p.pos,
    })
}
