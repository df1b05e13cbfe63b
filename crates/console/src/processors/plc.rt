// The console's processor: its plain data, the table of its files, their data, and its datalog.
ghost use Rattle.std.specs.Prelude.{◌≤◌, length};

use base::Refusal;
use element_spec::Element;
use processor_element_core::{Setting, Spot};
use processor_spec::{FileRecord, Slc};

// Room for 64 entries of 255 bytes, each behind a length word.
pub const LOG: usize = 16448;

// Room for the files' data.
pub const DATA: usize = 65535;

#[derive(Drop)]
pub struct Plc {
    pub slc: Slc,
    pub table: [FileRecord; 256],
    // the files' data, and behind it room for what stands there where the processor is seen as bytes (image)
    pub bytes: [u8; 83848],
    pub log: [u8; LOG],
    // what stands behind the numbers then
    pub spare: [u8; 30],
}

const NO_FILE: FileRecord = FileRecord {
    number: 0,
    code: 0,
    start: 0,
    length: 0,
};

impl Plc {
    // One that has no file.
    pub fn new() -> Plc {
        Plc {
            slc: Slc {
                files: 0,
                type_text: [0; 11],
                type_len: 0,
                log_at: 0,
                log_left: 0,
            },
            table: [NO_FILE; 256],
            bytes: [0; 83848],
            log: [0; LOG],
            spare: [0; 30],
        }
    }

    // Builds it anew; where that is refused, one that has no file.
    pub fn build(
        &mut self,
        text: &[u8],
        files: &[[u32; 3]],
        log: [u8; LOG],
        count: usize,
    ) -> Result<(), Refusal> {
        self.table = [NO_FILE; 256];
        self.log = log;
        let bytes = &mut self.bytes[..];
        let end = DATA.min(bytes.len());
        let built = processor_new::new(
            &mut self.table,
            &mut bytes[..end],
            &self.log,
            count,
            files,
            text,
        );
        self.slc = built.slc;
        built.made
    }

    // The records in use, as far as the table goes.
    pub fn files(&self) -> &[FileRecord]
        ensures { length result.now ≤ 256 }
    {
        &self.table[..self.slc.files.min(256)]
    }

    // The type's text, as far as there is room for it.
    pub fn type_text(&self) -> &[u8] {
        &self.slc.type_text[..self.slc.type_len.min(11)]
    }

    // The length of its reply to a command.
    pub fn obey(&mut self, command: &[u8], reply: &mut [u8]) -> Result<usize, Refusal> {
        let bytes = &mut self.bytes[..];
        let end = DATA.min(bytes.len());
        let done = processor::pccc(
            self.slc,
            &self.table,
            &mut bytes[..end],
            &self.log,
            command,
            reply,
        );
        self.slc = done.slc;
        done.answered
    }

    pub fn element(&self, spot: Spot, text: &mut [u8]) -> Result<Element, Refusal> {
        processor_element::read(
            self.slc,
            &self.table,
            &self.bytes[..DATA],
            &self.log,
            spot,
            text,
        )
    }

    pub fn set(&mut self, setting: Setting, text: &[u8]) -> Result<(), Refusal> {
        let bytes = &mut self.bytes[..];
        let end = DATA.min(bytes.len());
        processor_element::set(
            self.slc,
            &self.table,
            &mut bytes[..end],
            &self.log,
            setting,
            text,
        )
    }
}
