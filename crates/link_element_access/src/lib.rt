// Element access of the C interface: the covered parts of reading and setting an element by a type code.
#![tactic(auto)]

ghost use Rattle.std.specs.Prelude.{◌≡◌, length};
ghost use Rattle.processor_soundness.specs.Sound.{sound_by};
ghost use Rattle.file_type.specs.Table.{of_code};
ghost use Rattle.link_elements.specs.ElementRecords.{StoresInNumbers, ReadsInNumbers};
ghost use Rattle.link_element_access.specs.AccessByCode.{no_type, spot_of, setting_of, read_in_by, set_in_by};

use base::Refusal;
use file_type::FileType;
use link_elements::{SlcElement, SlcValue};
use processor_element_core::{Setting, Spot};
use processor_spec::Slc;
use processor_table::Seen;

// An element that is to be read: a file's number, its type code, and the place in it.
#[repr(C)]
#[derive(Clone, Copy)]
pub struct SlcSpot {
    pub number: u16,
    pub code: u8,
    pub element: usize,
}

// An element that is to be set, and the value.
#[repr(C)]
#[derive(Clone, Copy)]
pub struct SlcSetting {
    pub number: u16,
    pub code: u8,
    pub element: usize,
    pub value: SlcValue,
}

// A code that no type has: 16, then 19.
fn no_type(slc: Slc, s: Seen, memory_length: usize, log: &[u8]) -> Refusal
    ensures { result ≡ no_type (sound_by slc s memory_length log.now) }
{
    if processor_soundness::sound(slc, s, memory_length, log) {
        return Refusal::NoSuchElement;
    }
    Refusal::Unsound
}

fn spot_of(t: FileType, w: SlcSpot) -> Spot
    ensures { result ≡ spot_of t w }
{
    Spot {
        number: w.number,
        file_type: t,
        element: w.element,
    }
}

fn setting_of(t: FileType, w: SlcSetting) -> Setting
    ensures { result ≡ setting_of t w }
{
    Setting {
        number: w.number,
        file_type: t,
        element: w.element,
        value: link_elements::value_of(t, w.value),
    }
}

// Reads an element, by what the survey of the file table tells.
pub fn read_element(
    slc: Slc,
    s: Seen,
    memory: &[u8],
    log: &[u8],
    w: SlcSpot,
    text: &mut [u8],
) -> SlcElement
    ensures { ReadsInNumbers (read_in_by (of_code w.code) slc s w memory.now log.now (length text.old)) text.old result text.new }
{
    match FileType::from_code(w.code) {
        Some(t) => link_elements::numbers_of(processor_element_core::read_element(
            slc,
            s,
            memory,
            log,
            spot_of(t, w),
            text,
        )),
        None => link_elements::numbers_of(Err(no_type(slc, s, memory.len(), log))),
    }
}

// Sets an element, by what the survey of the file table tells.
pub fn set_element(
    slc: Slc,
    s: Seen,
    memory: &mut [u8],
    log: &[u8],
    w: SlcSetting,
    text: &[u8],
) -> u8
    ensures { StoresInNumbers (set_in_by (of_code w.code) slc s w memory.old log.now text.now) memory.old result memory.new }
{
    match FileType::from_code(w.code) {
        Some(t) => link_elements::stored_number(processor_element_core::set_element(
            slc,
            s,
            memory,
            log,
            setting_of(t, w),
            text,
        )),
        None => link_elements::stored_number(Err(no_type(slc, s, memory.len(), log))),
    }
}
