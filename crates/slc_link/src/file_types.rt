// File types, and the names of their fields.
ghost use Rattle.std.specs.Prelude.{◌≡◌};
ghost use Rattle.file_type.specs.Table.{of_code, of_name};
ghost use Rattle.link_types.specs.Types.{type_record, name_record, bit_name_in, word_name_in, field_in, field_record};

use file_type::FileType;
use link_types::{SlcField, SlcFileType, SlcName};

#[unsafe(no_mangle)]
pub extern "C" fn slc_type_of_code(code: u8) -> SlcFileType
    ensures { result ≡ type_record (of_code code) }
{
    link_types::type_record(FileType::from_code(code))
}

#[unsafe(no_mangle)]
pub extern "C" fn slc_type_of_name(name: &[u8]) -> SlcFileType
    ensures { result ≡ type_record (of_name name.now) }
{
    link_types::type_record(FileType::from_name(name))
}

#[unsafe(no_mangle)]
pub extern "C" fn slc_bit_name(code: u8, i: usize) -> SlcName
    ensures { result ≡ name_record (bit_name_in (of_code code) i) }
{
    link_types::bit_name(FileType::from_code(code), i)
}

#[unsafe(no_mangle)]
pub extern "C" fn slc_word_name(code: u8, i: usize) -> SlcName
    ensures { result ≡ name_record (word_name_in (of_code code) i) }
{
    link_types::word_name(FileType::from_code(code), i)
}

#[unsafe(no_mangle)]
pub extern "C" fn slc_field_of(code: u8, name: &[u8]) -> SlcField
    ensures { result ≡ field_record (field_in (of_code code) name.now) }
{
    link_types::field_of(FileType::from_code(code), name)
}
