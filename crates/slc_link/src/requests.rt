// Addresses and requests.
ghost use Rattle.std.specs.Prelude.{◌≡◌};
ghost use Rattle.address_readings.specs.Readings.{address_in};
ghost use Rattle.address_dotted.specs.DottedAnswers.{dotting};
ghost use Rattle.request_frame.specs.RequestFrame.{default_requestor};
ghost use Rattle.request_untagged.specs.Requests.{processor_type, datalog};
ghost use Rattle.link_requests.specs.Kinds.{reading_of, kind_of, writing_kind};
ghost use Rattle.link_requests.specs.RequestRecords.{address_record, Asks};
ghost use Rattle.link_texts.specs.WrittenRecords.{Dots, Sends};
ghost use Rattle.request_spec.specs.Request.{reading as request_reading};

use link_requests::requests::{SlcAddress, SlcRequest};
use link_requests::{kinds, requests as records};
use link_texts::SlcWritten;
use request_frame::Requestor;

#[unsafe(no_mangle)]
pub extern "C" fn slc_parse_tag(tag: &[u8], reading: u8) -> SlcAddress
    ensures { result ≡ address_record (address_in (reading_of reading) tag.now) }
{
    records::address_record(address::parse_tag(tag, kinds::reading_of(reading)))
}

#[unsafe(no_mangle)]
pub extern "C" fn slc_dotted(tag: &[u8], out: &mut [u8]) -> SlcWritten
    ensures { Dots (dotting tag.now out.old) out.old result out.new }
{
    link_texts::written_record(address_dotted::dotted(tag, out))
}

#[unsafe(no_mangle)]
pub extern "C" fn slc_default_requestor() -> Requestor
    ensures { result ≡ default_requestor }
{
    Requestor::default()
}

#[unsafe(no_mangle)]
pub extern "C" fn slc_read_request(
    tag: &[u8],
    reading: u8,
    q: Requestor,
    sequence: u16,
    out: &mut [u8],
) -> SlcRequest
    ensures { Asks (request_reading tag.now (reading_of reading) q sequence out.old) out.old result out.new }
{
    records::request_record(request::read_request(
        tag,
        kinds::reading_of(reading),
        q,
        sequence,
        out,
    ))
}

#[unsafe(no_mangle)]
pub extern "C" fn slc_write_request(
    tag: &[u8],
    reading: u8,
    kind: u8,
    bytes: &[u8],
    q: Requestor,
    sequence: u16,
    out: &mut [u8],
) -> SlcRequest
    ensures { Asks (writing_kind (kind_of kind) tag.now (reading_of reading) bytes.now q sequence out.old) out.old result out.new }
{
    let r = kinds::reading_of(reading);
    match kinds::kind_of(kind) {
        Some(v) => records::request_record(request::write_request(
            tag, r, v, bytes, q, sequence, out,
        )),
        None => records::request_record(kinds::unsuited(tag, r)),
    }
}

#[unsafe(no_mangle)]
pub extern "C" fn slc_processor_type_request(
    q: Requestor,
    sequence: u16,
    out: &mut [u8],
) -> SlcWritten
    ensures { Sends (processor_type q sequence out.old) out.old result out.new }
{
    link_texts::written_record(request_untagged::processor_type_request(q, sequence, out))
}

#[unsafe(no_mangle)]
pub extern "C" fn slc_datalog_request(queue: u8, out: &mut [u8]) -> SlcWritten
    ensures { Sends (datalog queue out.old) out.old result out.new }
{
    link_texts::written_record(request_untagged::datalog_request(queue, out))
}
