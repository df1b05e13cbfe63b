// One row of a file directory, client side: what it says, and the number and the elements of its file.
#![tactic(auto)]

ghost use Rattle.std.specs.Prelude.{◌≡◌, ◌/◌, drop};
ghost use Rattle.file_type.specs.Table.{row as table_row};
ghost use Rattle.directory_row.specs.Row.{file_row, other_row, number_of};

use file_type::FileType;

// What a row says: a file and its length, a file whose length is cut, a number that is kept free, or nothing.
#[derive(Clone, Copy, PartialEq, Eq)]
pub enum Row {
    File(FileType, u16),
    Cut,
    Reserved,
    Other,
}

pub fn file_row(bytes: &[u8], at: usize, t: FileType) -> Row
    ensures { result ≡ file_row t (drop at bytes.now) }
{
    if bytes.len().saturating_sub(at) < 2 {
        return Row::Cut;
    }
    Row::File(t, base::word_at(bytes, at))
}

pub fn other_row(code: u8) -> Row
    ensures { result ≡ other_row code }
{
    if code == 0x81 {
        Row::Reserved
    } else {
        Row::Other
    }
}

// The number of a file: I is file 1 where no row stands for file 0.
pub fn number_of(t: FileType, number: u32) -> u32
    ensures { result ≡ number_of t number }
{
    if number == 0 && t.code() == FileType::I.code() {
        1
    } else {
        number
    }
}

pub fn elements(t: FileType, size: u16) -> u32
    ensures { result ≡ size / (table_row t).size }
{
    (usize::from(size) / t.element_size()) as u32
}
