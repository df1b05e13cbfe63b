// Answers of the line protocol that many calls share.
ghost use Rattle.base.specs.Refusals.{number_of};
ghost use Rattle.console.specs.Said.{Said};
ghost use Rattle.console.specs.AnswerLines.{refused_line, error_line, byte_string as lines_byte_string, ok_bytes as lines_ok_bytes};

use crate::output::Output;
use base::Refusal;

impl<R: Print> Output<'_, R> {
    pub fn refused(&mut self, refusal: Refusal)
        ensures { Said self.old.bytes self.old.pending (refused_line (number_of refusal)) self.new.pending self.new.bytes }
    {
        self.plain(b"refused ");
        self.number(u64::from(refusal.number()));
        self.plain(b"\n");
    }

    pub fn error(&mut self, why: &[u8])
        ensures { Said self.old.bytes self.old.pending (error_line why.now) self.new.pending self.new.bytes }
    {
        self.plain(b"error ");
        self.plain(why);
        self.plain(b"\n");
    }

    // Bytes in hexadecimal, `-` where there are none.
    pub fn byte_string(&mut self, bytes: &[u8])
        ensures { Said self.old.bytes self.old.pending (lines_byte_string bytes.now) self.new.pending self.new.bytes }
    {
        if bytes.is_empty() {
            self.plain(b"-");
        } else {
            self.hex(bytes);
        }
    }

    pub fn ok_bytes(&mut self, bytes: &[u8])
        ensures { Said self.old.bytes self.old.pending (lines_ok_bytes bytes.now) self.new.pending self.new.bytes }
    {
        self.plain(b"ok ");
        self.byte_string(bytes);
        self.plain(b"\n");
    }

    // Text that begins with its blank.
    pub fn ok_text(&mut self, text: &[u8]) {
        self.plain(b"ok");
        self.plain(text);
        self.plain(b"\n");
    }
}
