// The file directory that a command asks for: an array of 2,793 zeros, by value, with the rows of a table's first records stored over it.
#![tactic(auto)]

mod rows;

ghost use Rattle.std.specs.Prelude.{◌≡◌};
ghost use Rattle.processor_directory.specs.Listing.{directory_of};

use processor_query::Layout;
use processor_spec::FileRecord;
use processor_table::Seen;

// The array is lent to `store_row` anew in each turn, and never copied.
pub fn directory(table: &[FileRecord], n: usize, layout: Layout, s: Seen) -> [u8; 2793]
    ensures { result ≡ directory_of table.now n layout s }
{
    let mut d = rows::blank(layout.first, layout.row, s.next);
    let records = &table[..n.min(table.len())];
    for r in records {
        rows::store_row(&mut d, *r, layout.first, layout.row);
    }
    d
}
