// The KIND of a call, which says what fields stand behind it.
use crate::answers::Fault;
use crate::lines::calls::Name;
use crate::lines::fields::Fields;

#[derive(Clone, Copy, PartialEq, Eq)]
pub enum Kind {
    // a value of an element
    Int,
    Float,
    Words,
    Text,
    Field,
    // one of a write, which may be a text too
    Raw,
    Bool,
    // what is spoiled
    Files,
    TypeLen,
    LogAt,
    LogLeft,
    TypeText,
    Log,
    Record,
}

impl Kind {
    fn shapes(self) -> &'static str {
        match self {
            Kind::Int => "i",
            Kind::Float => "f",
            Kind::Words => "w",
            Kind::Text | Kind::Raw => "x",
            Kind::Field => "xi",
            Kind::Bool => "1",
            Kind::Files | Kind::TypeLen | Kind::LogAt | Kind::LogLeft => "n",
            Kind::TypeText | Kind::Log => "nc",
            Kind::Record => "nncnn",
        }
    }
}

fn of_value(word: &[u8]) -> Option<Kind> {
    match word {
        b"int" => Some(Kind::Int),
        b"float" => Some(Kind::Float),
        b"words" => Some(Kind::Words),
        b"text" => Some(Kind::Text),
        b"field" => Some(Kind::Field),
        _ => None,
    }
}

fn of_write(word: &[u8]) -> Option<Kind> {
    match word {
        b"raw" => Some(Kind::Raw),
        b"text" => Some(Kind::Text),
        b"bool" => Some(Kind::Bool),
        _ => None,
    }
}

fn of_spoil(word: &[u8]) -> Option<Kind> {
    match word {
        b"files" => Some(Kind::Files),
        b"typelen" => Some(Kind::TypeLen),
        b"logat" => Some(Kind::LogAt),
        b"logleft" => Some(Kind::LogLeft),
        b"text" => Some(Kind::TypeText),
        b"log" => Some(Kind::Log),
        b"record" => Some(Kind::Record),
        _ => None,
    }
}

fn of_call(name: Name, word: &[u8]) -> Option<Kind> {
    match name {
        Name::Enc | Name::Set => of_value(word),
        Name::Write => of_write(word),
        _ => of_spoil(word),
    }
}

// The KIND of a call that has one, and the fields before and behind it. `fields` where no KIND stands there, and `kind` where the call knows no such KIND.
pub fn read(line: &[u8], name: Name, space: &mut [u8]) -> Result<(Option<Kind>, Fields), Fault> {
    let before = name.shapes().as_bytes();
    if !matches!(name, Name::Enc | Name::Set | Name::Write | Name::Spoil) {
        let fields = Fields::read(line, before, space)?;
        return Ok((None, fields));
    }
    let at = before.len().saturating_add(1);
    if text::fields(line) <= at {
        return Err(Fault::Fields);
    }
    let kind = of_call(name, text::field(line, at)).ok_or(Fault::Kind)?;
    let fields = Fields::read_around(line, before, kind.shapes().as_bytes(), space)?;
    Ok((Some(kind), fields))
}
