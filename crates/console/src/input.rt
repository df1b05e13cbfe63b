// A line of the input, which comes in pieces.
ghost use Rattle.std.specs.Prelude.{◌≤◌, length};

// Room for a line and one byte more: a line that fills it is longer than a line may be, and what does not fit is left out.
#[derive(Drop)]
pub struct Line {
    bytes: [u8; 262145],
    kept: usize,
    ghost fits: { kept ≤ length bytes },
}

impl Line {
    pub fn new() -> Line {
        Line {
            bytes: [0; 262145],
            kept: 0,
        }
    }

    pub fn keep(&mut self, b: u8) {
        if self.kept < self.bytes.len() {
            self.bytes[self.kept] = b;
            self.kept += 1;
        }
    }

    pub fn clear(&mut self) {
        self.kept = 0;
    }

    pub fn is_empty(&self) -> bool {
        self.kept == 0
    }

    // None where the line is longer than a line may be.
    pub fn bytes(&self) -> Option<&[u8]> {
        if self.kept < self.bytes.len() {
            Some(&self.bytes[..self.kept])
        } else {
            None
        }
    }
}
