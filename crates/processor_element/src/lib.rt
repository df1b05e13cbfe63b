// Element access of the simulated processor, over the lent table.
#![tactic(auto)]

ghost use Rattle.std.specs.Prelude.{length};
ghost use Rattle.element_spec.specs.Decode.{Reads};
ghost use Rattle.element_spec.specs.Encode.{Stores};
ghost use Rattle.processor_spec.specs.ElementAccess.{read_of, set_of};
ghost use Rattle.processor_spec.specs.Plain.{state_of};

use base::Refusal;
use element_spec::Element;
use processor_element_core::{Setting, Spot};
use processor_spec::{FileRecord, Slc};

// Reads an element; text is written to the lent memory. 16, 19 or 24 where it is refused, which changes nothing.
pub fn read(
    slc: Slc,
    table: &[FileRecord],
    memory: &[u8],
    log: &[u8],
    w: Spot,
    text: &mut [u8],
) -> Result<Element, Refusal>
    ensures { Reads (read_of (state_of slc table.now memory.now log.now) w.file_type w.number w.element (length text.old)) text.old result text.new }
{
    let s = processor_table::survey(table, slc.files, w.number);
    processor_element_core::read_element(slc, s, memory, log, w, text)
}

// Sets an element; `text` is the text of A and ST, or the name of the field. 16 or 19 to 23 where it is refused, which changes nothing.
pub fn set(
    slc: Slc,
    table: &[FileRecord],
    memory: &mut [u8],
    log: &[u8],
    w: Setting,
    text: &[u8],
) -> Result<(), Refusal>
    ensures { Stores (set_of (state_of slc table.now memory.old log.now) w.file_type w.number w.element w.value text.now) memory.old result memory.new }
{
    let s = processor_table::survey(table, slc.files, w.number);
    processor_element_core::set_element(slc, s, memory, log, w, text)
}
