// Element access: reading and setting one element, by what the survey of the file table tells.
#![tactic(auto)]

ghost use Rattle.std.specs.Prelude.{◌≡◌, length};
ghost use Rattle.element_spec.specs.Decode.{Reads};
ghost use Rattle.element_spec.specs.Encode.{Stores};
ghost use Rattle.processor_element_core.specs.AccessBySurvey.{element_by, read_by, set_here, set_by};

use base::Refusal;
use element_spec::{Element, Value};
use file_type::FileType;
use processor_spec::Slc;
use processor_table::Seen;

// An element that is to be read: a file's number and type, and the place in it.
#[derive(Clone, Copy)]
pub struct Spot {
    pub number: u16,
    pub file_type: FileType,
    pub element: usize,
}

// An element that is to be set, and the value. Text, and the name of a field, stand in lent memory.
#[derive(Clone, Copy)]
pub struct Setting {
    pub number: u16,
    pub file_type: FileType,
    pub element: usize,
    pub value: Value,
}

// 19: the file that was found, of the given type, and as many elements as its length holds.
fn locate(s: Seen, t: FileType, element: usize) -> Option<usize>
    ensures { result ≡ element_by s t element }
{
    let r = s.found?;
    if r.code != t.code() {
        return None;
    }
    let size = t.element_size();
    if usize::from(r.length) / size <= element {
        return None;
    }
    Some(usize::from(r.start) + element * size)
}

// Reads an element; text is written to the lent memory, which needs 82 bytes for it. A refusal changes nothing.
pub fn read_element(
    slc: Slc,
    s: Seen,
    memory: &[u8],
    log: &[u8],
    w: Spot,
    text: &mut [u8],
) -> Result<Element, Refusal>
    ensures { Reads (read_by slc s w memory.now log.now (length text.old)) text.old result text.new }
{
    if !processor_soundness::sound(slc, s, memory.len(), log) {
        return Err(Refusal::Unsound);
    }
    let t = w.file_type;
    let at = locate(s, t, w.element).ok_or(Refusal::NoSuchElement)?;
    element_decode::decode_element(
        t,
        processor_locate::part(memory, at, t.element_size()),
        text,
    )
}

// Sets an element; `text` is the text of A and ST, or the name of the field. A refusal changes nothing.
pub fn set_element(
    slc: Slc,
    s: Seen,
    memory: &mut [u8],
    log: &[u8],
    w: Setting,
    text: &[u8],
) -> Result<(), Refusal>
    ensures { Stores (set_by slc s w memory.old log.now text.now) memory.old result memory.new }
{
    if !processor_soundness::sound(slc, s, memory.len(), log) {
        return Err(Refusal::Unsound);
    }
    let t = w.file_type;
    let at = locate(s, t, w.element).ok_or(Refusal::NoSuchElement)?;
    set_at(memory, at, t, w.value, text)
}

// Sets the element at a place of the data memory; 19 where the memory does not hold it.
fn set_at(memory: &mut [u8], at: usize, t: FileType, v: Value, text: &[u8]) -> Result<(), Refusal>
    ensures { Stores (set_here at t v text.now memory.old) memory.old result memory.new }
{
    let size = t.element_size();
    if memory.len() < at {
        return Err(Refusal::NoSuchElement);
    }
    if memory.len() - at < size {
        return Err(Refusal::NoSuchElement);
    }
    element_encode::encode_element(t, v, text, &mut memory[at..at + size])
}
