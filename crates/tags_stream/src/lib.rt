// What the program `tags` does, as functions on slices: the input comes in pieces, cut anyhow, and memory is bounded.
#![tactic(auto)]

ghost use Rattle.std.specs.Prelude.{◌≡◌, [], ◌+◌, ◌*◌, ◌≤◌, length};
ghost use Rattle.tags_stream.specs.Pieces.{keeping, Feeds, Finishes};
ghost use Rattle.tags_stream.specs.FeedSteps.{Stepped, Ran, with_kept};

// What is kept of a line that has not ended: its first bytes, up to 256.
#[repr(C)]
#[derive(Clone, Copy)]
pub struct Line {
    pub bytes: [u8; 256],
    pub kept: usize,
}

// The line that goes on behind a piece of the input, how many bytes of the piece were taken, and how many of the output are in use.
#[repr(C)]
#[derive(Clone, Copy)]
pub struct Fed {
    pub line: Line,
    pub taken: usize,
    pub used: usize,
}

impl Line {
    // A line that has no byte yet.
    pub fn empty() -> Self
        ensures { result ≡ keeping [] }
    {
        Line {
            bytes: [0; 256],
            kept: 0,
        }
    }

    // The line that keeps these bytes.
    fn of(text: &[u8]) -> Self
        requires { length text.now ≤ 256 }
        ensures { result ≡ keeping text.now }
    {
        let mut bytes = [0; 256];
        let kept = base::put_all(&mut bytes, 0, text);
        Line { bytes, kept }
    }

    // One byte of the input, behind `kept` bytes of the line and the bytes of the output that are in use: how many are then. Behind 256 bytes of a
    // line nothing is kept: it is refused all the same.
    fn step(&mut self, b: u8, kept: usize, out: &mut [u8], used: usize) -> (usize, usize)
        requires { (kept ≤ 256) × (used + 64 ≤ length out.old) }
        ensures { Stepped b (with_kept self.old kept) out.old used result.1 (with_kept self.new result.0) out.new }
    {
        if b == b'\n' {
            return (0, tags_line::answer(&self.bytes[..kept], out, used));
        }
        if kept < self.bytes.len() {
            self.bytes[kept] = b;
            return (kept + 1, used);
        }
        (kept, used)
    }

    // All bytes of a piece. How many are kept stands apart from the line meanwhile, or it would be stored and loaded for each byte.
    fn run(&mut self, piece: &[u8], out: &mut [u8]) -> usize
        requires { (self.old.kept ≤ 256) × (64 * length piece.now ≤ length out.old) }
        ensures { Ran piece.now self.old out.old result self.new out.new }
    {
        let mut kept = self.kept;
        let mut used = 0;
        for b in piece {
            let after = self.step(*b, kept, out, used);
            kept = after.0;
            used = after.1;
        }
        self.kept = kept;
        used
    }
}

// The answers to the lines that end in a piece of the input, from the start of the output. As many bytes are taken as the output has room
// for, 64 for each.
pub fn feed(line: Line, piece: &[u8], out: &mut [u8]) -> Fed
    ensures { Feeds line piece.now out.old result out.new }
{
    let mut line = Line {
        kept: line.kept.min(256),
        ..line
    };
    let taken = piece.len().min(out.len() / 64);
    let used = line.run(&piece[..taken], out);
    Fed {
        line: Line::of(&line.bytes[..line.kept]),
        taken,
        used,
    }
}

// The answer to a line that has no newline, where the input ends. There has to be room for 64 bytes.
pub fn finish(line: Line, out: &mut [u8]) -> usize
    ensures { Finishes line out.old result out.new }
{
    let kept = line.kept.min(256);
    if kept == 0 || out.len() < 64 {
        return 0;
    }
    tags_line::answer(&line.bytes[..kept], out, 0)
}
