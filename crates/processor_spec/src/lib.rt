// The simulated processor: its plain data. What the data means, and what the processor does, are the definitions in specs/.
#![tactic(auto)]

use base::Refusal;

// A file: its number, its type code, and where its bytes lie in the data memory.
#[repr(C)]
#[derive(Clone, Copy)]
pub struct FileRecord {
    pub number: u16,
    pub code: u8,
    pub start: u16,
    pub length: u16,
}

// A processor, by value. Its file records, its data and its datalog stand in lent memories.
#[repr(C)]
#[derive(Clone, Copy)]
pub struct Slc {
    // records in use, from the table's start
    pub files: usize,
    pub type_text: [u8; 11],
    pub type_len: usize,
    // place of the oldest datalog entry that is left, and how many are
    pub log_at: usize,
    pub log_left: usize,
}

// The processor as a command leaves it, and the answer: how many bytes of the reply memory are the reply.
#[derive(Clone, Copy)]
pub struct Done {
    pub slc: Slc,
    pub answered: Result<usize, Refusal>,
}

// The processor that was built; where building was refused, one that has no file.
#[derive(Clone, Copy)]
pub struct Built {
    pub slc: Slc,
    pub made: Result<(), Refusal>,
}
