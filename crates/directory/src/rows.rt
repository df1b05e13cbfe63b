// The rows of a file directory, in two passes: one judges them and counts the files, the other lays the files over the output.
ghost use Rattle.std.specs.Prelude.{◌≡◌, [], ◌∷◌, ◌+◌, ◌<◌, ◌≤◌, length, drop, get_or};
ghost use Rattle.file_type.specs.Table.{of_code};
ghost use Rattle.directory_row.specs.Row.{row_of};
ghost use Rattle.directory.specs.Passes.{count_from, lay, Turned};
ghost use Rattle.directory.specs.Rows.{rows, files_from};

use directory_row::Row;
use file_type::FileType;

// What the row at a place says.
fn row_at(bytes: &[u8], at: usize) -> Row
    requires { at < length bytes.now }
    ensures { result ≡ row_of (of_code (get_or bytes.now at 0)) (get_or bytes.now at 0) (drop (at + 1) bytes.now) }
{
    let row = &bytes[at..];
    let code = row[0];
    match FileType::from_code(code) {
        Some(t) => directory_row::file_row(row, 1, t),
        None => directory_row::other_row(code),
    }
}

// How many files there are with this row's, unless it is cut.
#[tactic(auto, unfolding(crate::specs::Passes::count_from))]
fn count_row(n: usize, row: Row) -> Option<usize>
    requires { n < 65536 }
    ensures { result ≡ count_from n (row ∷ []) }
{
    match row {
        Row::File(_, _) => Some(n + 1),
        Row::Cut => None,
        Row::Reserved | Row::Other => Some(n),
    }
}

// How many files there are, unless a row is cut.
pub fn count_files(first: usize, size: usize, bytes: &[u8]) -> Option<usize>
    requires { (length bytes.now ≤ 65535) × (0 < size) }
    ensures { result ≡ count_from 0 (rows first size bytes.now) }
{
    let mut n = 0;
    for at in (first..bytes.len()).step_by(size) {
        n = count_row(n, row_at(bytes, at))?;
    }
    Some(n)
}

// How many files are laid, and the number of the next row that counts.
#[derive(Clone, Copy)]
pub struct Turn {
    pub at: usize,
    pub number: u32,
}

fn lay_row(out: &mut [[u32; 4]], p: Turn, row: Row) -> Turn
    requires { (p.at + length (files_from p.number (row ∷ [])) ≤ length out.old) × (p.number ≤ 65536) }
    ensures { Turned out.old p row result out.new }
{
    match row {
        Row::File(t, size) => {
            let number = directory_row::number_of(t, p.number);
            out[p.at] = [
                u32::from(t.code()),
                number,
                directory_row::elements(t, size),
                u32::from(size),
            ];
            Turn {
                at: p.at + 1,
                number: number + 1,
            }
        }
        Row::Reserved => Turn {
            number: p.number + 1,
            ..p
        },
        Row::Cut | Row::Other => p,
    }
}

// The first n files, which are all, from the start of the output on. Rows behind the last file aren't read again.
pub fn lay_files(first: usize, size: usize, bytes: &[u8], n: usize, out: &mut [[u32; 4]])
    requires { (length bytes.now ≤ 65535) × (0 < size) × (n ≡ length (files_from 0 (rows first size bytes.now))) × (n ≤ length out.old) }
    ensures { out.new ≡ lay out.old 0 (files_from 0 (rows first size bytes.now)) }
{
    let mut p = Turn { at: 0, number: 0 };
    for at in (first..bytes.len()).step_by(size) {
        if n <= p.at {
            break;
        }
        p = lay_row(out, p, row_at(bytes, at));
    }
}
