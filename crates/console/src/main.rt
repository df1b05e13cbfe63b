// Answers the lines of oracle/PROTOCOL.md: one request a line on standard input, one answer a line on standard output.
#![tactic(auto)]

mod addresses;
mod answers;
mod directories;
mod elements;
mod input;
mod lines;
mod output;
mod processors;
mod replies;
mod requests;
mod test_aids;
mod types;

use crate::answers::{Answered, Fault};
use crate::input::Line;
use crate::lines::{Call, Name};
use crate::output::Output;
use crate::processors::plc::Plc;
use std::io::Read;

// What calls work on: the bytes of a line's fields, the text or the bytes of an answer, and the simulated processor.
#[derive(Drop)]
struct Desk {
    space: [u8; 131072],
    memory: [u8; 262144],
    plc: Plc,
}

// The calls that ask the processor.
fn of_processor(call: Call<'_>, memory: &mut [u8], plc: &mut Plc) -> Answered {
    match call.name {
        Name::Sim => crate::processors::build(call, memory, plc),
        Name::Cmd => crate::processors::command(call, memory, plc),
        Name::Get => crate::processors::get(call, memory, plc),
        Name::Set => crate::processors::set(call, plc),
        Name::Directory => crate::processors::directory(memory, plc),
        Name::Fill => crate::test_aids::fill(call, plc),
        Name::Spoil => crate::test_aids::spoil(call, plc),
        Name::Dump => crate::test_aids::dump(memory, plc),
        Name::Hash => crate::test_aids::hash(memory, plc),
        _ => of_texts(call, memory),
    }
}

// The calls on file types, elements and replies.
fn of_texts(call: Call<'_>, memory: &mut [u8]) -> Answered {
    match call.name {
        Name::Ft => crate::types::by_code(call, memory),
        Name::FtName => crate::types::by_name(call, memory),
        Name::SimFt => crate::types::simulated(call, memory),
        Name::Swap => crate::types::swapped(call, memory),
        Name::Pairs => crate::types::pairs(call, memory),
        Name::Ascii => crate::types::ascii(call, memory),
        Name::String => crate::types::string(call, memory),
        Name::Dec => crate::elements::decoded(call, memory),
        Name::Enc => crate::elements::encoded(call, memory),
        Name::Status => crate::replies::status(call, memory),
        Name::ErrText => crate::replies::error_text(call, memory),
        Name::DatalogParse => crate::replies::datalog(call, memory),
        _ => of_requests(call, memory),
    }
}

// The calls on addresses, requests and the file directory.
fn of_requests(call: Call<'_>, memory: &mut [u8]) -> Answered {
    match call.name {
        Name::Tag => crate::addresses::tag(call, memory),
        Name::Dotted => crate::addresses::dotted(call, memory),
        Name::Read => crate::requests::read(call, memory),
        Name::Write => crate::requests::write(call, memory),
        Name::Proc => crate::requests::processor_type(call, memory),
        Name::DatalogReq => crate::requests::datalog(call, memory),
        Name::DirSizeReq => crate::requests::directory_size(call, memory),
        Name::DirReadReq => crate::requests::directory_read(call, memory),
        Name::Sys0 => crate::directories::sys0(call, memory),
        Name::DirSize => crate::directories::size(call, memory),
        _ => Err(Fault::Call.into()),
    }
}

// The answer to a line that is no comment.
fn reply<R: Print>(line: &[u8], desk: &mut Desk, out: &mut Output<'_, R>) {
    match crate::lines::read(line, &mut desk.space) {
        Err(fault) => out.error(fault.word().as_bytes()),
        Ok(call) if call.name == Name::Dir => crate::directories::say_dir(out, call),
        Ok(call) => {
            let answered = of_processor(call, &mut desk.memory, &mut desk.plc);
            crate::answers::say(out, answered, &desk.memory);
        }
    }
}

// The answer to a line. Empty lines and lines that begin with `#` are echoed.
fn answer_line<R: Print>(line: &Line, desk: &mut Desk, out: &mut Output<'_, R>) {
    match line.bytes() {
        None => out.error(Fault::Line.word().as_bytes()),
        Some(bytes) if matches!(bytes, [] | [b'#', ..]) => {
            out.plain(bytes);
            out.plain(b"\n");
        }
        Some(bytes) => reply(bytes, desk, out),
    }
}

// Answers all lines that end in what was read.
fn answer_all<R: Print>(input: &[u8], line: &mut Line, desk: &mut Desk, out: &mut Output<'_, R>) {
    for b in input {
        if *b == b'\n' {
            answer_line(line, desk, out);
            line.clear();
        } else {
            line.keep(*b);
        }
    }
}

// At the end of input, and where a read fails, the last line is answered, where it has no newline.
fn answer_input<R: Print>(from: &mut impl Read, desk: &mut Desk, out: &mut Output<'_, R>) {
    let mut input = [0u8; 65536];
    let mut line = Line::new();
    for _ in 0..u64::MAX {
        match from.read(&mut input) {
            Err(_) | Ok(0) => {
                if !line.is_empty() {
                    answer_line(&line, desk, out);
                    out.flush();
                }
                return;
            }
            Ok(n) => answer_all(&input[..n], &mut line, desk, out),
        }
        out.flush();
        if !out.good() {
            return;
        }
    }
}

fn main(rt: HostRuntime) {
    let mut desk = Desk {
        space: [0; 131072],
        memory: [0; 262144],
        plc: Plc::new(),
    };
    answer_input(&mut rt.stdin(), &mut desk, &mut Output::new(&rt));
}
