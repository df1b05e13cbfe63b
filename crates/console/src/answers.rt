// Answers of the line protocol (oracle/PROTOCOL.md), and text for them in lent memory.
mod laid;
mod said;

use crate::output::Output;
use base::Refusal;
pub use laid::Text;

// Why a line is none of the protocol.
#[derive(Clone, Copy)]
pub enum Fault {
    Line,
    Call,
    Fields,
    Kind,
    Hex,
    Number,
}

impl Fault {
    pub fn word(self) -> &'static str {
        match self {
            Fault::Line => "line",
            Fault::Call => "call",
            Fault::Fields => "fields",
            Fault::Kind => "kind",
            Fault::Hex => "hex",
            Fault::Number => "number",
        }
    }
}

// Why a line has no answer.
#[derive(Clone, Copy)]
pub enum Failure {
    Fault(Fault),
    Refused(Refusal),
}

impl From<Fault> for Failure {
    fn from(fault: Fault) -> Failure {
        Failure::Fault(fault)
    }
}

impl From<Refusal> for Failure {
    fn from(refusal: Refusal) -> Failure {
        Failure::Refused(refusal)
    }
}

#[derive(Clone, Copy)]
pub enum Answer {
    Done,
    Nothing,
    // So many bytes at the memory's start; so many bytes of text there, which begins with its blank.
    Bytes(usize),
    Text(usize),
}

pub type Answered = Result<Answer, Failure>;

// The first bytes of a memory, as far as it goes.
fn first(n: usize, memory: &[u8]) -> &[u8] {
    &memory[..n.min(memory.len())]
}

// An answer whose bytes or text stand in `memory`.
pub fn say<R: Print>(out: &mut Output<'_, R>, answered: Answered, memory: &[u8]) {
    match answered {
        Err(Failure::Fault(fault)) => out.error(fault.word().as_bytes()),
        Err(Failure::Refused(refusal)) => out.refused(refusal),
        Ok(Answer::Done) => out.plain(b"ok\n"),
        Ok(Answer::Nothing) => out.plain(b"ok none\n"),
        Ok(Answer::Bytes(n)) => out.ok_bytes(first(n, memory)),
        Ok(Answer::Text(n)) => out.ok_text(first(n, memory)),
    }
}
