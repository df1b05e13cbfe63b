// The fields of a line behind its first one, one for each shape: `x` a byte string, `q` a requester, `c` a code, `n` a number, `s` one up to 65535,
// `b` one up to 255, `1` one up to 1, `i` a signed one, `w` three signed ones, `f` the bits of a float, `_` anything.
use crate::answers::Fault;

// Of a number or a code its value; of a byte string where its bytes stand, and how many they are.
#[derive(Clone, Copy)]
pub struct Place {
    pub from: usize,
    pub n: u64,
}

// Beside the places signed numbers and the bits of a float, of which a line has one or one list. The bytes of byte strings stand end to end, up to
// `end`.
#[derive(Clone, Copy)]
pub struct Fields {
    end: usize,
    places: [Place; 6],
    whole: [i64; 3],
    pub bits: u32,
}

const NOWHERE: Place = Place { from: 0, n: 0 };

impl Fields {
    fn none() -> Fields {
        Fields {
            end: 0,
            places: [NOWHERE; 6],
            whole: [0; 3],
            bits: 0,
        }
    }

    pub fn place(&self, i: usize) -> Place {
        *self.places.get(i).unwrap_or(&NOWHERE)
    }

    pub fn signed(&self, i: usize) -> i64 {
        *self.whole.get(i).unwrap_or(&0)
    }

    fn keep(&mut self, i: usize, from: usize, n: u64) {
        if let Some(place) = self.places.get_mut(i) {
            *place = Place { from, n };
        }
    }

    fn keep_bytes(&mut self, i: usize, digits: &[u8], space: &mut [u8]) -> Result<(), Fault> {
        let from = self.end.min(space.len());
        let n = text::unhex(digits, &mut space[from..]).ok_or(Fault::Hex)?;
        self.keep(i, from, n as u64);
        self.end = from.saturating_add(n);
        Ok(())
    }

    fn keep_number(&mut self, i: usize, digits: &[u8], most: u64) -> Result<(), Fault> {
        let n = decimal::number(digits).ok_or(Fault::Number)?;
        if most < n {
            return Err(Fault::Number);
        }
        self.keep(i, 0, n);
        Ok(())
    }

    fn keep_code(&mut self, i: usize, digits: &[u8]) -> Result<(), Fault> {
        let code = text::code(digits).ok_or(Fault::Hex)?;
        self.keep(i, 0, u64::from(code));
        Ok(())
    }

    // Signed number i of the line.
    fn keep_signed(&mut self, i: usize, digits: &[u8]) -> Result<(), Fault> {
        let n = decimal::signed(digits).ok_or(Fault::Number)?;
        if let Some(place) = self.whole.get_mut(i) {
            *place = n;
        }
        Ok(())
    }

    fn keep_three(&mut self, s: &[u8]) -> Result<(), Fault> {
        if text::parts(s, b',') != 3 {
            return Err(Fault::Number);
        }
        for i in 0..3 {
            self.keep_signed(i, text::part(s, b',', i))?;
        }
        Ok(())
    }

    fn keep_float(&mut self, digits: &[u8]) -> Result<(), Fault> {
        self.bits = text::bits(digits).ok_or(Fault::Hex)?;
        Ok(())
    }

    // Field i behind the first. A requester has exactly twelve digits.
    fn keep_field(&mut self, i: usize, shape: u8, s: &[u8], space: &mut [u8]) -> Result<(), Fault> {
        match shape {
            b'x' => self.keep_bytes(i, s, space),
            b'q' if s.len() != 12 => Err(Fault::Hex),
            b'q' => self.keep_bytes(i, s, space),
            b'_' => Ok(()),
            _ => self.keep_value(i, shape, s),
        }
    }

    fn keep_value(&mut self, i: usize, shape: u8, s: &[u8]) -> Result<(), Fault> {
        match shape {
            b'c' => self.keep_code(i, s),
            b'i' => self.keep_signed(0, s),
            b'w' => self.keep_three(s),
            b'f' => self.keep_float(s),
            b's' => self.keep_number(i, s, 65535),
            b'b' => self.keep_number(i, s, 255),
            b'1' => self.keep_number(i, s, 1),
            _ => self.keep_number(i, s, u64::MAX),
        }
    }

    // Fields of these shapes behind the first `from` ones, beside those that were read.
    fn keep_all(
        &mut self,
        line: &[u8],
        from: usize,
        shapes: &[u8],
        space: &mut [u8],
    ) -> Result<(), Fault> {
        for (k, shape) in shapes.iter().enumerate() {
            let i = from.saturating_add(k);
            self.keep_field(i, *shape, text::field(line, i.saturating_add(1)), space)?;
        }
        Ok(())
    }

    // The bytes of byte strings stand in `space`.
    pub fn read(line: &[u8], shapes: &[u8], space: &mut [u8]) -> Result<Fields, Fault> {
        if text::fields(line) != shapes.len().saturating_add(1) {
            return Err(Fault::Fields);
        }
        let mut fields = Fields::none();
        fields.keep_all(line, 0, shapes, space)?;
        Ok(fields)
    }

    // The same with one field more between two lists of them, which isn't read.
    pub fn read_around(
        line: &[u8],
        before: &[u8],
        behind: &[u8],
        space: &mut [u8],
    ) -> Result<Fields, Fault> {
        let from = before.len().saturating_add(1);
        if text::fields(line) != from.saturating_add(1).saturating_add(behind.len()) {
            return Err(Fault::Fields);
        }
        let mut fields = Fields::none();
        fields.keep_all(line, 0, before, space)?;
        fields.keep_all(line, from, behind, space)?;
        Ok(fields)
    }
}
