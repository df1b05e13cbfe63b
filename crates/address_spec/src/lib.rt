// The address spelling: the definitions of document 01 (specs/), their laws and rows (proofs/), and the plain data of an address.
#![tactic(auto)]

use file_type::FileType;

// A data file address.
#[derive(Clone, Copy)]
pub struct Address {
    pub file_type: FileType,
    pub file_number: u16,
    pub element_number: u16,
    pub pos_number: Option<u16>,
    pub sub_element: Option<u16>,
    pub bit: bool,
    pub element_count: u64,
    pub kept: usize,
}
