// The processor's data, as `dump` shows it.
use crate::answers::Text;
use crate::processors::plc::Plc;
use processor_spec::FileRecord;

pub fn shown(plc: &Plc, text: &mut Text<'_>) {
    let files = plc.files();
    text.number(b' ', files.len() as u64);
    for r in files {
        text.number(b' ', u64::from(r.number));
        text.code(b':', r.code);
        text.byte_string(b':', file(*r, &plc.bytes));
    }
    entries(plc, text);
}

// The bytes of a file, as far as there are any.
fn file(r: FileRecord, bytes: &[u8]) -> &[u8] {
    let rest = &bytes[usize::from(r.start).min(bytes.len())..];
    &rest[..usize::from(r.length).min(rest.len())]
}

// The entries that are left, each a length word and its bytes.
fn entries(plc: &Plc, text: &mut Text<'_>) {
    let left = plc.slc.log_left;
    text.plain(b" log");
    text.number(b' ', left as u64);
    let mut rest = &plc.log[plc.slc.log_at.min(plc.log.len())..];
    for _ in 0..left.min(64) {
        let n = usize::from(base::word_at(rest, 0));
        let bytes = &rest[rest.len().min(2)..];
        let (entry, behind) = bytes.split_at(n.min(bytes.len()));
        text.byte_string(b' ', entry);
        rest = behind;
    }
}
