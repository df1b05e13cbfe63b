// Where an access begins in the data memory, and parts of lent memories.
#![tactic(auto)]

ghost use Rattle.std.specs.Prelude.{◌≡◌, take, drop};
ghost use Rattle.processor_locate.specs.Locate.{locate_by};

use processor_query::Query;
use processor_table::Seen;

// Where an access begins in the data memory: the file must exist with that type, and element × element size + 2 × last address + size must be
// within its length.
pub fn locate(s: Seen, q: Query) -> Option<usize>
    ensures { result ≡ locate_by s q }
{
    let r = s.found?;
    if r.code != q.code {
        return None;
    }
    let offset = usize::from(q.element) * file_type::simulated_size(r.code)
        + 2 * usize::from(q.sub);
    if usize::from(r.length) < offset + usize::from(q.size) {
        return None;
    }
    Some(usize::from(r.start) + offset)
}

// So many bytes from a place on, or those that are there.
pub fn part(s: &[u8], at: usize, n: usize) -> &[u8]
    ensures { result.now ≡ take n (drop at s.now) }
{
    if s.len() <= at {
        return &s[..0];
    }
    &s[at..at + n.min(s.len() - at)]
}
