// Values from the data of a read reply: their definitions (specs/), laws (proofs/), and the plain data of the answers.
#![tactic(auto)]

ghost use Rattle.std.specs.Prelude.{◌≡◌};
ghost use Rattle.reply_values_spec.specs.Values.{data_type, least as values_least};

use file_type::FileType;

// How the bytes of an element are read. INT, DINT and REAL are CIP's; A and ST are text; MG, PD and PLS have no such type.
#[derive(Clone, Copy)]
pub enum DataType {
    Int,
    DInt,
    Real,
    Ascii,
    Line,
    No,
}

// A value. Text stands in the lent memory, so many bytes of it.
#[derive(Clone, Copy)]
pub enum ReplyValue {
    Word(i16),
    Long(i32),
    Float(u32),
    Bit(bool),
    Text(usize),
}

pub fn data_type(t: FileType) -> DataType
    ensures { result ≡ data_type t }
{
    match t {
        FileType::O | FileType::I | FileType::S | FileType::B => DataType::Int,
        FileType::T | FileType::C | FileType::N => DataType::Int,
        FileType::R | FileType::L => DataType::DInt,
        FileType::F => DataType::Real,
        FileType::ST => DataType::Line,
        FileType::A => DataType::Ascii,
        FileType::MG | FileType::PD | FileType::PLS => DataType::No,
    }
}

// The bytes that a part must have to be read; of MG, PD and PLS more than any has.
pub fn least(k: DataType) -> usize
    ensures { result ≡ values_least k }
{
    match k {
        DataType::Int | DataType::Line => 2,
        DataType::DInt | DataType::Real => 4,
        DataType::Ascii => 0,
        DataType::No => 85,
    }
}
