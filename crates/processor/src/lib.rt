// The simulated processor's command, `Slc::pccc`, over the lent table.
#![tactic(auto)]

ghost use Rattle.std.specs.Prelude.{◌≡◌};
ghost use Rattle.processor_spec.specs.Pccc.{Says, left};
ghost use Rattle.processor_directory.specs.Listing.{directory_of};
ghost use Rattle.processor_refinement.specs.CallBySurvey.{show_of};

use processor_query::{Layout, Query};
use processor_spec::{Done, FileRecord, Slc};
use processor_table::Seen;

// A command for the directory. The directory's array is a local of this call: of `pccc` it would be cleared for every command.
fn show(
    slc: Slc,
    table: &[FileRecord],
    s: Seen,
    q: Query,
    l: Layout,
    memory: &mut [u8],
    log: &[u8],
    command: &[u8],
    reply: &mut [u8],
) -> Done
    ensures { left result memory.new reply.new ≡ show_of slc s q l (directory_of table.now slc.files l s) memory.old log.now command.now reply.old }
{
    let d = processor_directory::directory(table, slc.files, l, s);
    processor_show_directory::show(slc, s, q, l, d, memory, log, command, reply)
}

// Answers a command: 16 to 18 where it is refused, which changes nothing. Only a command for the directory pays for it.
pub fn pccc(
    slc: Slc,
    table: &[FileRecord],
    memory: &mut [u8],
    log: &[u8],
    command: &[u8],
    reply: &mut [u8],
) -> Done
    ensures { Says slc table.now memory.old log.now command.now reply.old result memory.new reply.new }
{
    let q = processor_query::asked(slc, command);
    let s = processor_table::survey(table, slc.files, q.number);
    match q.directory() {
        Some(layout) => show(slc, table, s, q, layout, memory, log, command, reply),
        None => processor_respond::respond(slc, s, q, memory, log, command, reply),
    }
}
