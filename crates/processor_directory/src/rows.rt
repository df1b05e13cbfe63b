// The file directory's rows: "The directory starts as at most 2,793 zero bytes", and rows are stored over it.
ghost use Rattle.std.specs.Prelude.{◌≡◌};
ghost use Rattle.processor_directory.specs.StoredRows.{row_at, marked_at, blank_of, stored_row};

use processor_spec::FileRecord;

// Where the row of a number begins.
fn row_at(first: u8, row: u8, number: u16) -> usize
    ensures { result ≡ row_at first row number }
{
    usize::from(first) + usize::from(row) * usize::from(number)
}

fn mark(d: &mut [u8; 2793], at: usize)
    ensures { d.new ≡ marked_at d.old at }
{
    if at < 2793 {
        d[at] = 0x81;
    }
}

// So many rows without a file.
pub fn blank(first: u8, row: u8, rows: u16) -> [u8; 2793]
    ensures { result ≡ blank_of first row rows }
{
    let mut d = [0u8; 2793];
    for k in 0..rows {
        mark(&mut d, row_at(first, row, k));
    }
    d
}

// The row of a file.
pub fn store_row(d: &mut [u8; 2793], r: FileRecord, first: u8, row: u8)
    ensures { d.new ≡ stored_row first row d.old r }
{
    let at = row_at(first, row, r.number);
    if at < 2791 {
        d[at] = r.code;
        d[at + 1] = (r.length % 256) as u8;
        d[at + 2] = (r.length / 256 % 256) as u8;
    }
}
