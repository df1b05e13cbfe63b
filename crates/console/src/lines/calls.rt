// The calls of the line protocol. A new call is a name, a word, the shapes of its fields, and an arm of `answer` in main.rt.

#[derive(Clone, Copy, PartialEq, Eq)]
pub enum Name {
    Tag,
    Dotted,
    Ft,
    SimFt,
    FtName,
    Swap,
    Pairs,
    Ascii,
    String,
    Dec,
    Enc,
    Read,
    Write,
    Proc,
    DatalogReq,
    DirSizeReq,
    DirReadReq,
    Status,
    ErrText,
    DatalogParse,
    Sys0,
    DirSize,
    Dir,
    Sim,
    Cmd,
    Get,
    Set,
    Directory,
    Fill,
    Spoil,
    Dump,
    Hash,
}

impl Name {
    // Is the call told the reading of its tag?
    pub fn has_reading(self) -> bool {
        matches!(self, Name::Tag | Name::Read | Name::Write)
    }

    // The shapes of the fields behind the call's word, up to a KIND (`fields`).
    pub fn shapes(self) -> &'static str {
        match self {
            Name::Tag | Name::Dotted | Name::FtName => "x",
            Name::Swap | Name::Pairs | Name::Ascii | Name::String => "x",
            Name::Status | Name::DatalogParse | Name::Sys0 | Name::Cmd => "x",
            Name::Ft | Name::SimFt | Name::ErrText => "c",
            Name::Dec | Name::Enc => "cx",
            Name::Read | Name::Write | Name::DirSizeReq => "xqs",
            Name::Proc => "qs",
            Name::DatalogReq => "b",
            Name::DirReadReq => "cnbqs",
            Name::DirSize => "xx",
            Name::Dir => "nnx",
            Name::Sim => "x__",
            Name::Get | Name::Set => "cnn",
            Name::Fill => "nx",
            Name::Directory | Name::Spoil | Name::Dump | Name::Hash => "",
        }
    }
}

pub fn of_word(word: &[u8]) -> Option<Name> {
    match word {
        b"tag" => Some(Name::Tag),
        b"dotted" => Some(Name::Dotted),
        b"read" => Some(Name::Read),
        b"write" => Some(Name::Write),
        b"proc" => Some(Name::Proc),
        b"datalogreq" => Some(Name::DatalogReq),
        b"dirsizereq" => Some(Name::DirSizeReq),
        b"dirreadreq" => Some(Name::DirReadReq),
        b"status" => Some(Name::Status),
        b"errtext" => Some(Name::ErrText),
        b"datalogparse" => Some(Name::DatalogParse),
        b"sys0" => Some(Name::Sys0),
        b"dirsize" => Some(Name::DirSize),
        b"dir" => Some(Name::Dir),
        _ => on_elements(word),
    }
}

fn on_elements(word: &[u8]) -> Option<Name> {
    match word {
        b"ft" => Some(Name::Ft),
        b"simft" => Some(Name::SimFt),
        b"ftname" => Some(Name::FtName),
        b"swap" => Some(Name::Swap),
        b"pairs" => Some(Name::Pairs),
        b"ascii" => Some(Name::Ascii),
        b"string" => Some(Name::String),
        b"dec" => Some(Name::Dec),
        b"enc" => Some(Name::Enc),
        _ => on_processor(word),
    }
}

fn on_processor(word: &[u8]) -> Option<Name> {
    match word {
        b"sim" => Some(Name::Sim),
        b"cmd" => Some(Name::Cmd),
        b"get" => Some(Name::Get),
        b"set" => Some(Name::Set),
        b"directory" => Some(Name::Directory),
        b"fill" => Some(Name::Fill),
        b"spoil" => Some(Name::Spoil),
        b"dump" => Some(Name::Dump),
        b"hash" => Some(Name::Hash),
        _ => None,
    }
}
