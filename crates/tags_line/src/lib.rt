// The answer to one line of the program `tags`, and the definition of the whole program (specs/Lines.antt).
#![tactic(auto)]

ghost use Rattle.std.specs.Prelude.{[], ◌∷◌, ◌++◌};
ghost use Rattle.base.specs.Put.{Puts};
ghost use Rattle.request_spec.specs.Request.{refused};
ghost use Rattle.text.specs.Hex.{hex};
ghost use Rattle.tags_line.specs.Lines.{answer as lines_answer};
ghost use Rattle.tags_line.specs.Answered.{Answered};

use address_readings::Reading;
use base::Refusal;
use request_frame::Requestor;

// `refused` and the number.
fn put_refused(out: &mut [u8], at: usize, e: Refusal) -> usize
    ensures { Puts out.old at (lines_answer (refused e)) result out.new }
{
    let mut line = [0u8; 12];
    let a = base::put_all(&mut line, 0, b"refused ");
    let b = decimal::put_decimal(&mut line, a, u64::from(e.number()));
    let c = base::put_all(&mut line, b, b"\n");
    base::put_all(out, at, &line[..c])
}

// A message in capital hexadecimal.
fn put_message(out: &mut [u8], at: usize, message: &[u8]) -> usize
    ensures { Puts out.old at (hex message.now ++ (10 ∷ [])) result out.new }
{
    if out.len() <= at || (out.len() - at - 1) / 2 < message.len() {
        return at;
    }
    let a = text::put_hex(out, at, message);
    base::put_all(out, a, b"\n")
}

// The answer to a line.
pub fn answer(tag: &[u8], out: &mut [u8], at: usize) -> usize
    ensures { Answered tag.now out.old at result out.new }
{
    let mut message = [0u8; 27];
    match request::read_request(tag, Reading::New, Requestor::default(), 0, &mut message) {
        Err(e) => put_refused(out, at, e),
        Ok((_, n)) => put_message(out, at, &message[..n]),
    }
}
