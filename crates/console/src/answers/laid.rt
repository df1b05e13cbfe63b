// Text of an answer, laid in lent memory.
ghost use Rattle.std.specs.Prelude.{[], ◌∷◌};
ghost use Rattle.base.specs.Put.{Puts};
ghost use Rattle.text.specs.Hex.{hex as hex_hex};
ghost use Rattle.decimal.specs.Decimals.{decimal, signed_text};
ghost use Rattle.console.specs.Pieces.{PutsTwo};
ghost use Rattle.console.specs.AnswerLines.{byte_string as lines_byte_string};

use crate::answers::Answer;

// The text is the first `end` bytes. What finds no room is left out whole.
#[derive(Drop)]
pub struct Text<'a> {
    memory: &'a mut [u8],
    end: usize,
}

impl<'a> Text<'a> {
    pub fn new(memory: &'a mut [u8]) -> Text<'a> {
        Text { memory, end: 0 }
    }

    // Bytes as they are.
    pub fn plain(&mut self, bytes: &[u8])
        ensures { Puts self.old.memory.now self.old.end bytes.now self.new.end self.new.memory.now }
    {
        self.end = base::put_all(self.memory, self.end, bytes);
    }

    // Two digits for each byte.
    fn hex(&mut self, bytes: &[u8])
        ensures { Puts self.old.memory.now self.old.end (hex_hex bytes.now) self.new.end self.new.memory.now }
    {
        self.end = text::put_hex(self.memory, self.end, bytes);
    }

    // A number without a sign.
    pub fn decimal(&mut self, n: u64)
        ensures { Puts self.old.memory.now self.old.end (decimal n) self.new.end self.new.memory.now }
    {
        self.end = decimal::put_decimal(self.memory, self.end, n);
    }

    fn signed_decimal(&mut self, n: i64)
        ensures { Puts self.old.memory.now self.old.end (signed_text n) self.new.end self.new.memory.now }
    {
        self.end = decimal::put_signed(self.memory, self.end, n);
    }

    // A sign and a number.
    #[tactic(auto, using(crate::proofs::answers::TwoPieces::two_laid))]
    pub fn number(&mut self, sign: u8, n: u64)
        ensures { PutsTwo self.old.memory.now self.old.end (sign ∷ []) (decimal n) self.new.end self.new.memory.now }
    {
        self.plain(&[sign]);
        self.decimal(n);
    }

    #[tactic(auto, using(crate::proofs::answers::TwoPieces::two_laid))]
    pub fn signed(&mut self, sign: u8, n: i64)
        ensures { PutsTwo self.old.memory.now self.old.end (sign ∷ []) (signed_text n) self.new.end self.new.memory.now }
    {
        self.plain(&[sign]);
        self.signed_decimal(n);
    }

    // A sign and a byte in hexadecimal.
    #[tactic(auto, using(crate::proofs::answers::TwoPieces::two_laid))]
    pub fn code(&mut self, sign: u8, b: u8)
        ensures { PutsTwo self.old.memory.now self.old.end (sign ∷ []) (hex_hex (b ∷ [])) self.new.end self.new.memory.now }
    {
        self.plain(&[sign]);
        self.hex(&[b]);
    }

    // A sign and bytes in hexadecimal, `-` where there are none.
    pub fn byte_string(&mut self, sign: u8, bytes: &[u8])
        ensures { PutsTwo self.old.memory.now self.old.end (sign ∷ []) (lines_byte_string bytes.now) self.new.end self.new.memory.now }
    {
        self.plain(&[sign]);
        if bytes.is_empty() {
            self.plain(b"-");
        } else {
            self.hex(bytes);
        }
    }

    pub fn len(&self) -> usize {
        self.end
    }

    pub fn answer(&self) -> Answer {
        Answer::Text(self.end)
    }
}
