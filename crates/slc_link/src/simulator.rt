// The simulated processor, over the lent table.
ghost use Rattle.std.specs.Prelude.{length};
ghost use Rattle.file_type.specs.Table.{of_code};
ghost use Rattle.processor_spec.specs.Build.{new_of, plan_of};
ghost use Rattle.processor_spec.specs.Plain.{state_of};
ghost use Rattle.link_element_access.specs.AccessByCode.{read_in, set_in};
ghost use Rattle.link_processor.specs.ProcessorRecords.{SaysInNumbers, Raises};
ghost use Rattle.link_elements.specs.ElementRecords.{StoresInNumbers, ReadsInNumbers};

use link_element_access::{SlcSetting, SlcSpot};
use link_elements::SlcElement;
use link_processor::{SlcBuilt, SlcDone};
use processor_spec::{FileRecord, Slc};

// Builds a processor: 11 to 15 where it is refused.
#[unsafe(no_mangle)]
pub extern "C" fn slc_new(
    table: &mut [FileRecord],
    memory: &mut [u8],
    log: &[u8],
    count: usize,
    files: &[[u32; 3]],
    text: &[u8],
) -> SlcBuilt
    ensures { Raises (new_of (plan_of files.now text.now log.now count) table.old memory.old) result table.new memory.new }
{
    link_processor::built_of(processor_new::new(table, memory, log, count, files, text))
}

// Answers a command: 16 to 18 where it is refused.
#[unsafe(no_mangle)]
pub extern "C" fn slc_pccc(
    slc: Slc,
    table: &[FileRecord],
    memory: &mut [u8],
    log: &[u8],
    command: &[u8],
    reply: &mut [u8],
) -> SlcDone
    ensures { SaysInNumbers slc table.now memory.old log.now command.now reply.old result memory.new reply.new }
{
    link_processor::done_of(processor::pccc(slc, table, memory, log, command, reply))
}

// Reads an element; text is written to the lent memory, which needs 82 bytes for it. 16, 19 or 24 where it is refused.
#[unsafe(no_mangle)]
pub extern "C" fn slc_read(
    slc: Slc,
    table: &[FileRecord],
    memory: &[u8],
    log: &[u8],
    at: SlcSpot,
    text: &mut [u8],
) -> SlcElement
    ensures { ReadsInNumbers (read_in (of_code at.code) (state_of slc table.now memory.now log.now) at (length text.old)) text.old result text.new }
{
    let s = processor_table::survey(table, slc.files, at.number);
    link_element_access::read_element(slc, s, memory, log, at, text)
}

// Sets an element; `text` is the text of A and ST, or the name of the field. 16 or 19 to 23 where it is refused.
#[unsafe(no_mangle)]
pub extern "C" fn slc_set(
    slc: Slc,
    table: &[FileRecord],
    memory: &mut [u8],
    log: &[u8],
    to: SlcSetting,
    text: &[u8],
) -> u8
    ensures { StoresInNumbers (set_in (of_code to.code) (state_of slc table.now memory.old log.now) to text.now) memory.old result memory.new }
{
    let s = processor_table::survey(table, slc.files, to.number);
    link_element_access::set_element(slc, s, memory, log, to, text)
}
