// Which values suit a file type.
ghost use Rattle.std.specs.Prelude.{◌≡◌};
ghost use Rattle.element_spec.specs.Encode.{kind_of};

use file_type::FileType;

#[derive(Clone, Copy, Debug, PartialEq, Eq)]
pub enum ElementKind {
    Word,
    Long,
    Float,
    Ascii,
    Line,
    Fields,
    Other,
}

pub fn kind_of(t: FileType) -> ElementKind
    ensures { result ≡ kind_of t }
{
    match t {
        FileType::O | FileType::I | FileType::S | FileType::B | FileType::N => ElementKind::Word,
        FileType::L => ElementKind::Long,
        FileType::F => ElementKind::Float,
        FileType::A => ElementKind::Ascii,
        FileType::ST => ElementKind::Line,
        FileType::T | FileType::C | FileType::R => ElementKind::Fields,
        FileType::MG | FileType::PD | FileType::PLS => ElementKind::Other,
    }
}
