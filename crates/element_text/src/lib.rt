// Byte pairs swapped, and the text of A and ST elements: an SLC stores two characters to a word, the first in the high byte.
#![tactic(auto)]

ghost use Rattle.std.specs.Prelude.{◌≡◌};
ghost use Rattle.element_text.specs.Text.{swap_pairs, padded_swap, ascii_text, string_text, written_of, out_of};

use base::Refusal;

// Swaps the bytes of each pair; an odd last byte stays.
pub fn swap_pairs(bytes: &mut [u8])
    ensures { bytes.new ≡ swap_pairs bytes.old }
{
    for i in 0..bytes.len() / 2 {
        bytes.swap(2 * i, 2 * i + 1);
    }
}

// The bytes with each pair swapped, an odd length padded with a zero byte first.
pub fn slc_string_swap(bytes: &[u8], out: &mut [u8]) -> Result<usize, Refusal>
    ensures { (result ≡ written_of (padded_swap bytes.now) out.old) × (out.new ≡ out_of (padded_swap bytes.now) out.old) }
{
    let n = bytes.len();
    let m = n + n % 2;
    if out.len() < m {
        return Err(Refusal::ShortOutput);
    }
    base::put_all(out, 0, bytes);
    base::put_number(out, n, n % 2, 0);
    swap_pairs(&mut out[..m]);
    Ok(m)
}

// The text of an A element: cut or padded with spaces to two characters.
#[tactic(auto, unfolding(crate::specs::Text::ascii_text, crate::specs::Text::swap_pairs, crate::specs::Text::fitted))]
pub fn encode_pccc_ascii(text: &[u8]) -> [u8; 2]
    ensures { result ≡ ascii_text text.now }
{
    [
        text.get(1).copied().unwrap_or(b' '),
        text.first().copied().unwrap_or(b' '),
    ]
}

// The text of an ST element: a length word and 82 characters, cut or padded with zeros.
pub fn encode_pccc_string(text: &[u8]) -> [u8; 84]
    ensures { result ≡ string_text text.now }
{
    let mut out = [0u8; 84];
    let n = text.len().min(82);
    base::put_number(&mut out, 0, 2, n as u64);
    base::put_all(&mut out, 2, &text[..n]);
    swap_pairs(&mut out[2..]);
    out
}
