// The file directory, as a client reads it.
ghost use Rattle.std.specs.Prelude.{◌≡◌, length};
ghost use Rattle.directory.specs.Rows.{listed};
ghost use Rattle.directory_size.specs.Size.{size_of, reply_size};
ghost use Rattle.request_untagged.specs.Requests.{directory_size, directory_read};
ghost use Rattle.link_texts.specs.WrittenRecords.{Sends, Lists, size_record};
ghost use Rattle.directory_sys0.specs.Families.{sys0};

use directory_sys0::Sys0Info;
use link_texts::{SlcDirectorySize, SlcWritten};
use request_frame::Requestor;

#[unsafe(no_mangle)]
pub extern "C" fn slc_sys0_info(plc_type: &[u8]) -> Sys0Info
    ensures { result ≡ sys0 plc_type.now }
{
    directory_sys0::sys0_info(plc_type)
}

#[unsafe(no_mangle)]
pub extern "C" fn slc_file_directory_size_request(
    info: Sys0Info,
    q: Requestor,
    sequence: u16,
    out: &mut [u8],
) -> SlcWritten
    ensures { Sends (directory_size info q sequence out.old) out.old result out.new }
{
    link_texts::written_record(request_untagged::file_directory_size_request(
        info, q, sequence, out,
    ))
}

#[unsafe(no_mangle)]
pub extern "C" fn slc_file_directory_read_request(
    file_type: u8,
    offset: usize,
    size: u8,
    q: Requestor,
    sequence: u16,
    out: &mut [u8],
) -> SlcWritten
    ensures { Sends (directory_read file_type offset size q sequence out.old) out.old result out.new }
{
    link_texts::written_record(request_untagged::file_directory_read_request(
        file_type, offset, size, q, sequence, out,
    ))
}

#[unsafe(no_mangle)]
pub extern "C" fn slc_parse_file_directory_size(raw: &[u8], info: Sys0Info) -> SlcDirectorySize
    ensures { result ≡ size_record (size_of raw.now info.size_const) }
{
    link_texts::size_record(directory_size::parse_file_directory_size(raw, info))
}

#[unsafe(no_mangle)]
pub extern "C" fn slc_reply_directory_size(reply: &[u8], info: Sys0Info) -> SlcDirectorySize
    ensures { result ≡ size_record (reply_size reply.now info.size_const) }
{
    link_texts::size_record(directory_size::reply_directory_size(reply, info))
}

#[unsafe(no_mangle)]
pub extern "C" fn slc_parse_file_directory(
    file_position: usize,
    row_size: usize,
    bytes: &[u8],
    out: &mut [[u32; 4]],
) -> SlcWritten
    ensures { Lists (listed file_position row_size bytes.now (length out.old)) out.old result out.new }
{
    link_texts::written_record(directory::parse_file_directory(file_position, row_size, bytes, out))
}
