// File types as answers show them.
use crate::answers::Text;
use file_type::FileType;

// A name is shown as its bytes.
fn name(n: &str, text: &mut Text<'_>) {
    text.byte_string(b' ', n.as_bytes());
}

// NAME size CODE
pub fn file_type(t: FileType, text: &mut Text<'_>) {
    name(t.name(), text);
    text.number(b' ', t.element_size() as u64);
    text.code(b' ', t.code());
}

// One of the simulator's types; T, C and R with the names of words 1 and 2 and of the status bits from bit 15 down.
pub fn simulated(t: FileType, text: &mut Text<'_>) {
    file_type(t, text);
    for i in 0..2 {
        if let Some(n) = file_type_fields::word_name(t, i) {
            name(n, text);
        }
    }
    bits(t, text);
}

fn bits(t: FileType, text: &mut Text<'_>) {
    for i in 0..file_type_fields::bits(t) {
        if let Some(n) = file_type_fields::bit_name(t, i) {
            name(n, text);
        }
    }
}
