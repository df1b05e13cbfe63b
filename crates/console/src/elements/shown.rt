// An element as it is shown: `i:N`, `f:BITS`, `s:BYTES`, `t:word1:word2:bits`.
use crate::answers::Text;
use element_spec::Element;
use file_type::FileType;

// Its text stands in `characters`.
pub fn element(t: FileType, e: Element, characters: &[u8], text: &mut Text<'_>) {
    match e {
        Element::Whole(n) => {
            text.plain(b" i");
            text.signed(b':', i64::from(n));
        }
        Element::Float(bits) => {
            text.plain(b" f");
            text.byte_string(b':', &bits.to_be_bytes());
        }
        Element::Text(n) => {
            text.plain(b" s");
            text.byte_string(b':', &characters[..n.min(characters.len())]);
        }
        Element::Fields(a, b, status) => {
            text.plain(b" t");
            text.signed(b':', i64::from(a));
            text.signed(b':', i64::from(b));
            text.plain(b":");
            named_bits(t, status, text);
        }
    }
}

// A digit for each named bit, from bit 15 down.
fn named_bits(t: FileType, status: u16, text: &mut Text<'_>) {
    for i in 0..file_type_fields::bits(t) {
        let mask = base::bit_mask(15usize.saturating_sub(i));
        text.decimal(u64::from(status & mask != 0));
    }
}
