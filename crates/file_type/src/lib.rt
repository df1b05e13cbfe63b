// Data file types: names, PCCC type codes, element sizes.
#![tactic(auto)]

ghost use Rattle.std.specs.Prelude.{◌≡◌, false, find};
ghost use Rattle.base.specs.Chars.{spelled};
ghost use Rattle.file_type.specs.Table.{row, of_code, element_size, of_name};

#[derive(Clone, Copy, Debug, PartialEq, Eq)]
pub enum FileType {
    O,
    I,
    S,
    B,
    T,
    C,
    R,
    N,
    F,
    ST,
    A,
    L,
    MG,
    PD,
    PLS,
}

// What a name stands for in an element of T, C or R: word 1 or 2, or a bit of word 0.
#[derive(Clone, Copy, Debug, PartialEq, Eq)]
pub enum Field {
    Word(u8),
    Bit(u8),
}

impl FileType {
    // The PCCC type code.
    pub fn code(self) -> u8
        ensures { result ≡ (row self).code }
    {
        match self {
            FileType::O => 0x82,
            FileType::I => 0x83,
            FileType::S => 0x84,
            FileType::B => 0x85,
            FileType::T => 0x86,
            FileType::C => 0x87,
            FileType::R => 0x88,
            FileType::N => 0x89,
            FileType::F => 0x8A,
            FileType::ST => 0x8D,
            FileType::A => 0x8E,
            FileType::L => 0x91,
            FileType::MG => 0x92,
            FileType::PD => 0x93,
            FileType::PLS => 0x94,
        }
    }

    // The type of a code.
    #[tactic(auto, unfolding(crate::specs::Table::of_code))]
    pub fn from_code(code: u8) -> Option<FileType>
        ensures { result ≡ of_code code }
    {
        match code {
            0x82 => Some(FileType::O),
            0x83 => Some(FileType::I),
            0x84 => Some(FileType::S),
            0x85 => Some(FileType::B),
            0x86 => Some(FileType::T),
            0x87 => Some(FileType::C),
            0x88 => Some(FileType::R),
            0x89 => Some(FileType::N),
            0x8A => Some(FileType::F),
            0x8D => Some(FileType::ST),
            0x8E => Some(FileType::A),
            0x91 => Some(FileType::L),
            0x92 => Some(FileType::MG),
            0x93 => Some(FileType::PD),
            0x94 => Some(FileType::PLS),
            _ => None,
        }
    }

    // Bytes an element has.
    pub fn element_size(self) -> usize
        ensures { result ≡ (row self).size }
    {
        match self {
            FileType::O | FileType::I | FileType::S | FileType::B | FileType::N | FileType::A => 2,
            FileType::F | FileType::L => 4,
            FileType::T | FileType::C | FileType::R => 6,
            FileType::PLS => 12,
            FileType::PD => 46,
            FileType::MG => 50,
            FileType::ST => 84,
        }
    }

    // Is it one of the simulator's twelve?
    pub fn simulated(self) -> bool
        ensures { result ≡ (row self).simulated }
    {
        !matches!(self, FileType::MG | FileType::PD | FileType::PLS)
    }

    // The name as the Rust spells it.
    pub fn name(self) -> &'static str
        ensures { result.now ≡ (row self).name }
    {
        match self {
            FileType::O => "O",
            FileType::I => "I",
            FileType::S => "S",
            FileType::B => "B",
            FileType::T => "T",
            FileType::C => "C",
            FileType::R => "R",
            FileType::N => "N",
            FileType::F => "F",
            FileType::ST => "ST",
            FileType::A => "A",
            FileType::L => "L",
            FileType::MG => "MG",
            FileType::PD => "PD",
            FileType::PLS => "PLS",
        }
    }

    // Is it the type of this name?
    fn is_named(self, name: &[u8]) -> bool
        ensures { result ≡ spelled false (row self).name name.now }
    {
        base::spells(name, self.name().as_bytes(), false)
    }

    // The type of a name, in capital letters.
    #[tactic(auto, using(crate::proofs::FileTypes::named_first))]
    pub fn from_name(name: &[u8]) -> Option<FileType>
        ensures { result ≡ of_name name.now }
    {
        named(&FILE_TYPES, name)
    }
}

// The first of these types that has this name.
fn named(types: &[FileType], name: &[u8]) -> Option<FileType>
    ensures { result ≡ find (λ t. spelled false (row t).name name.now) types.now }
{
    types.iter().copied().find(|t| t.is_named(name))
}

// Bytes an element has of a type that the simulator knows, 0 for any other code.
#[tactic(auto, unfolding(crate::specs::Table::element_size))]
pub fn simulated_size(code: u8) -> usize
    ensures { result ≡ element_size code }
{
    match FileType::from_code(code) {
        Some(t) if t.simulated() => t.element_size(),
        _ => 0,
    }
}

const FILE_TYPES: [FileType; 15] = [
    FileType::O,
    FileType::I,
    FileType::S,
    FileType::B,
    FileType::T,
    FileType::C,
    FileType::R,
    FileType::N,
    FileType::F,
    FileType::ST,
    FileType::A,
    FileType::L,
    FileType::MG,
    FileType::PD,
    FileType::PLS,
];
