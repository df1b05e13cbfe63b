// Text for standard output, through a buffer. Where there is no room, what waits is written out first, and what is longer than the buffer is
// written straight away: nothing that is said is ever cut. No function has a `requires`.
ghost use Rattle.std.specs.Prelude.{◌≡◌, true, false, ◌+◌, ◌<◌, ◌≤◌, length};
ghost use Rattle.text.specs.Hex.{hex as hex_hex};
ghost use Rattle.decimal.specs.Decimals.{decimal};
ghost use Rattle.console.specs.Said.{Said};

// How many bytes of the buffer wait, and whether no write has failed so far. After one that failed nothing is written.
#[derive(Clone, Copy)]
pub struct Pending {
    pub at: usize,
    pub good: bool,
}

#[derive(Drop)]
pub struct Output<'a, R> {
    rt: &'a R,
    pub bytes: [u8; 65536],
    pub pending: Pending,
    ghost full: { length bytes ≡ 65536 },
}

// Writes bytes out.
fn write(rt: &impl Print, good: bool, bytes: &[u8]) -> bool
    ensures { good ≡ false → result ≡ false }
{
    good && rt.write_all(bytes).is_ok()
}

impl<'a, R: Print> Output<'a, R> {
    // Nothing waits yet.
    pub fn new(rt: &'a R) -> Output<'a, R>
        ensures { (result.pending.at ≡ 0) × (result.pending.good ≡ true) }
    {
        Output {
            rt,
            bytes: [0; 65536],
            pending: Pending { at: 0, good: true },
        }
    }

    // Has no write failed so far?
    pub fn good(&self) -> bool
        ensures { result ≡ self.now.pending.good }
    {
        self.pending.good
    }

    // Writes out what waits.
    pub fn flush(&mut self)
        ensures { (self.new.pending.at ≡ 0) × (self.old.pending.good ≡ false → self.new.pending.good ≡ false) × (self.new.bytes ≡ self.old.bytes) }
    {
        let n = self.pending.at.min(self.bytes.len());
        self.pending = Pending {
            at: 0,
            good: write(self.rt, self.pending.good, &self.bytes[..n]),
        };
    }

    // Bytes for which there is no room behind what waits.
    #[tactic(auto, using(crate::proofs::output::Saying::said_straight))]
    fn say_anew(&mut self, bytes: &[u8])
        requires { length self.old.bytes < self.old.pending.at + length bytes.now }
        ensures { Said self.old.bytes self.old.pending bytes.now self.new.pending self.new.bytes }
    {
        self.flush();
        if bytes.len() <= self.bytes.len() {
            self.pending.at = base::put_all(&mut self.bytes, 0, bytes);
        } else {
            self.pending.good = write(self.rt, self.pending.good, bytes);
        }
    }

    // Bytes as they are.
    pub fn plain(&mut self, bytes: &[u8])
        ensures { Said self.old.bytes self.old.pending bytes.now self.new.pending self.new.bytes }
    {
        let at = self.pending.at;
        if self.bytes.len() < at || self.bytes.len() - at < bytes.len() {
            self.say_anew(bytes);
        } else {
            self.pending.at = base::put_all(&mut self.bytes, at, bytes);
        }
    }

    // Two digits for each byte.
    pub fn hex(&mut self, bytes: &[u8])
        ensures { Said self.old.bytes self.old.pending (hex_hex bytes.now) self.new.pending self.new.bytes }
    {
        self.plain(b"");
        for piece in bytes.chunks(256) {
            self.hex_piece(piece);
        }
    }

    fn hex_piece(&mut self, bytes: &[u8])
        requires { length bytes.now ≤ 256 }
        ensures { Said self.old.bytes self.old.pending (hex_hex bytes.now) self.new.pending self.new.bytes }
    {
        let mut digits = [0u8; 512];
        let n = text::put_hex(&mut digits, 0, bytes);
        self.plain(&digits[..n]);
    }

    pub fn number(&mut self, n: u64)
        ensures { Said self.old.bytes self.old.pending (decimal n) self.new.pending self.new.bytes }
    {
        let mut digits = [0u8; 20];
        let k = decimal::put_decimal(&mut digits, 0, n);
        self.plain(&digits[..k]);
    }
}
