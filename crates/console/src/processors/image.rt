// The processor's bytes one behind the other: the data, the records, the processor's own numbers, the datalog. A record that was spoilt can reach behind
// the data, and `dump`, `hash` and `fill` then meet what stands there: it is laid there as far as they reach.
use crate::processors::plc::{DATA, Plc};
use processor_spec::FileRecord;

const ROW: usize = 7;

const NUMBERS: usize = 67327;

const TEXT: usize = 67359;

const BEHIND_TEXT: usize = 67370;

const LOG_AT: usize = 67400;

fn put_record(out: &mut [u8], at: usize, r: FileRecord) {
    let a = base::put_number(out, at, 2, u64::from(r.number));
    let b = base::put_number(out, a, 1, u64::from(r.code));
    let c = base::put_number(out, b, 2, u64::from(r.start));
    base::put_number(out, c, 2, u64::from(r.length));
}

// The record that a part begins with.
fn record(part: &[u8]) -> FileRecord {
    FileRecord {
        number: base::word_at(part, 0),
        code: (base::word_at(part, 2) % 256) as u8,
        start: base::word_at(part, 3),
        length: base::word_at(part, 5),
    }
}

// The number of eight bytes from a place on.
fn number(bytes: &[u8], at: usize) -> usize {
    let part = &bytes[at.min(bytes.len())..];
    let low = u64::from(base::long_at(part, 0));
    let high = u64::from(base::long_at(part, 4));
    (low + 4294967296 * high) as usize
}

impl Plc {
    // Lays what stands behind the data there, where the first `end` bytes reach it.
    pub fn lay_behind(&mut self, end: usize) {
        if DATA < end {
            self.lay_table();
        }
        if LOG_AT < end {
            base::put_all(&mut self.bytes, LOG_AT, &self.log);
        }
    }

    fn lay_table(&mut self) {
        for (i, r) in self.table.iter().enumerate() {
            put_record(&mut self.bytes, DATA + ROW * i, *r);
        }
        let a = base::put_number(&mut self.bytes, NUMBERS, 8, self.slc.files as u64);
        let b = base::put_number(&mut self.bytes, a, 8, self.slc.type_len as u64);
        let c = base::put_number(&mut self.bytes, b, 8, self.slc.log_at as u64);
        base::put_number(&mut self.bytes, c, 8, self.slc.log_left as u64);
        base::put_all(&mut self.bytes, TEXT, &self.slc.type_text);
        base::put_all(&mut self.bytes, BEHIND_TEXT, &self.spare);
    }

    // The processor that the bytes behind the data are, where the first `end` bytes reach them.
    pub fn keep_behind(&mut self, end: usize) {
        if DATA < end {
            self.keep_table();
        }
        if LOG_AT < end {
            let bytes = &self.bytes[..];
            base::put_all(&mut self.log, 0, &bytes[LOG_AT..]);
        }
    }

    fn keep_table(&mut self) {
        let bytes = &self.bytes[..];
        self.slc
            .type_text
            .copy_from_slice(&bytes[TEXT..BEHIND_TEXT]);
        base::put_all(&mut self.spare, 0, &bytes[BEHIND_TEXT..LOG_AT]);
        self.slc.files = number(bytes, NUMBERS);
        self.slc.type_len = number(bytes, NUMBERS + 8);
        self.slc.log_at = number(bytes, NUMBERS + 16);
        self.slc.log_left = number(bytes, NUMBERS + 24);
        for i in 0..256 {
            self.table[i] = record(&bytes[DATA + ROW * i..]);
        }
    }
}
