// What the programs print and read: hexadecimal text, and the fields of a line. No function has a `requires`.
#![tactic(auto)]

mod hex;
mod line;

pub use hex::{bits, code, put_hex, unhex};
pub use line::{field, fields, is, part, part_end, parts, within};
