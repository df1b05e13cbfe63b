// Building a processor, `Slc::new`, in a lent table and a lent data memory.
#![tactic(auto)]

ghost use Rattle.std.specs.Prelude.{◌≡◌};
ghost use Rattle.processor_spec.specs.Build.{new_of, plan_of, raised};
ghost use Rattle.processor_build_spec.specs.Plans.{laid_of};

use processor_spec::{Built, FileRecord};

// The first `count` records of the files, from the table's start.
pub fn lay(table: &mut [FileRecord], files: &[[u32; 3]], count: usize)
    ensures { table.new ≡ laid_of files.now count table.old }
{
    let m = count.min(table.len());
    for i in 0..m {
        table[i] = processor_build::record_of(files, i);
    }
}

// The processor of these files, each a number, a type code and how many elements it has, of the type text and of a datalog with so many
// entries: 11 to 15 where it is refused, which changes nothing.
pub fn new(
    table: &mut [FileRecord],
    memory: &mut [u8],
    log: &[u8],
    count: usize,
    files: &[[u32; 3]],
    text: &[u8],
) -> Built
    ensures { raised result table.new memory.new ≡ new_of (plan_of files.now text.now log.now count) table.old memory.old }
{
    let judged = processor_build::judge(files, text, log, count, table.len(), memory.len());
    if let Ok(sums) = judged {
        lay(table, files, sums.records);
    }
    processor_build::finish(judged, text, count, memory)
}
