// What a reply says: a raw one, and one that begins with the requester's id.
ghost use Rattle.std.specs.Prelude.{◌≡◌};
ghost use Rattle.link_texts.specs.WrittenRecords.{Says, part_of, reply_part};
ghost use Rattle.reply_status_text.specs.Texts.{text_of};
ghost use Rattle.reply.specs.Status.{status_text, reply_status};

use link_texts::{SlcPart, SlcWritten};

#[unsafe(no_mangle)]
pub extern "C" fn slc_request_status(raw: &[u8], out: &mut [u8]) -> SlcWritten
    ensures { Says (status_text raw.now) out.old result out.new }
{
    link_texts::status_record(reply::request_status(raw, out))
}

#[unsafe(no_mangle)]
pub extern "C" fn slc_reply_status(reply: &[u8], out: &mut [u8]) -> SlcWritten
    ensures { Says (reply_status reply.now) out.old result out.new }
{
    link_texts::status_record(reply::reply_status(reply, out))
}

#[unsafe(no_mangle)]
pub extern "C" fn slc_error_text(status: u8, out: &mut [u8]) -> SlcWritten
    ensures { Says (text_of status) out.old result out.new }
{
    link_texts::status_record(reply_status_text::pccc_error_text(status, out))
}

#[unsafe(no_mangle)]
pub extern "C" fn slc_parse_datalog(raw: &[u8]) -> SlcPart
    ensures { result ≡ part_of raw.now }
{
    link_texts::datalog_part(raw)
}

#[unsafe(no_mangle)]
pub extern "C" fn slc_reply_datalog(reply: &[u8]) -> SlcPart
    ensures { result ≡ reply_part reply.now }
{
    link_texts::reply_datalog_part(reply)
}
