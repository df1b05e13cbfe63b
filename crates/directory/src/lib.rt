// The file directory of a processor, client side: the data files that its rows name.
#![tactic(auto)]

mod rows;

ghost use Rattle.std.specs.Prelude.{◌≡◌, ◌<◌, ◌≤◌, length};
ghost use Rattle.directory.specs.Rows.{rows as rows_rows, files_from, within, listed, Lists};

use base::Refusal;

// The files of a directory in the order of its rows: each is its type code, number, elements and length in bytes.
pub fn parse_file_directory(
    file_position: usize,
    row_size: usize,
    bytes: &[u8],
    out: &mut [[u32; 4]],
) -> Result<usize, Refusal>
    ensures { Lists (listed file_position row_size bytes.now (length out.old)) out.old result out.new }
{
    if 65535 < bytes.len() {
        return Err(Refusal::LongDirectory);
    }
    if row_size == 0 {
        return Err(Refusal::NoRowSize);
    }
    let n = rows::count_files(file_position, row_size, bytes).ok_or(Refusal::CutRow)?;
    if out.len() < n {
        return Err(Refusal::MoreFilesThanRoom);
    }
    rows::lay_files(file_position, row_size, bytes, n, out);
    Ok(n)
}
