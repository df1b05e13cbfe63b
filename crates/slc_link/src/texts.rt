// Byte pairs swapped, and the text of A and ST elements.
ghost use Rattle.std.specs.Prelude.{◌≡◌};
ghost use Rattle.link_texts.specs.WrittenRecords.{Swaps};
ghost use Rattle.element_text.specs.Text.{swap_pairs, padded_swap, ascii_text, string_text};

use link_texts::SlcWritten;

#[unsafe(no_mangle)]
pub extern "C" fn slc_string_swap(bytes: &[u8], out: &mut [u8]) -> SlcWritten
    ensures { Swaps (padded_swap bytes.now) out.old result out.new }
{
    link_texts::written_record(element_text::slc_string_swap(bytes, out))
}

#[unsafe(no_mangle)]
pub extern "C" fn slc_swap_pairs(bytes: &mut [u8])
    ensures { bytes.new ≡ swap_pairs bytes.old }
{
    element_text::swap_pairs(bytes)
}

#[unsafe(no_mangle)]
pub extern "C" fn slc_encode_ascii(text: &[u8], out: &mut [u8]) -> SlcWritten
    ensures { Swaps (ascii_text text.now) out.old result out.new }
{
    let two = element_text::encode_pccc_ascii(text);
    link_texts::laid(&two, out)
}

#[unsafe(no_mangle)]
pub extern "C" fn slc_encode_string(text: &[u8], out: &mut [u8]) -> SlcWritten
    ensures { Swaps (string_text text.now) out.old result out.new }
{
    let line = element_text::encode_pccc_string(text);
    link_texts::laid(&line, out)
}
