// Reads tags by line, as new entries, and prints the read request of each in capital hexadecimal, or `refused` and the number.
#![tactic(auto)]

ghost use Rattle.std.specs.Prelude.{◌≡◌, ◌≤◌, length, IfOk};
ghost use Rattle.tags_stream.specs.Pieces.{rest, held, kept_by};

use std::io;
use std::io::Read;
use tags_stream::Line;

// Answers all of what was read. The line goes on behind it.
fn answer_all(rt: &impl Print, input: &[u8], line: Line, out: &mut [u8]) -> io::Result<Line>
    requires { 64 ≤ length out.old }
    ensures { IfOk result (λ l. held (kept_by l) ≡ held (rest (kept_by line) input.now)) }
{
    let mut left = input;
    let mut line = line;
    while !left.is_empty() {
        let fed = tags_stream::feed(line, left, out);
        rt.write_all(&out[..fed.used])?;
        left = &left[fed.taken..];
        line = fed.line;
    }
    Ok(line)
}

// Answers all of the input but a last line that has no newline. Nothing says that input ends, and a proved loop does: it has as many turns as
// no run uses up.
fn answer_input(
    rt: &impl Print,
    from: &mut impl Read,
    input: &mut [u8],
    out: &mut [u8],
) -> io::Result<Line>
    requires { 64 ≤ length out.old }
{
    let mut line = Line::empty();
    for _ in 0..u64::MAX {
        let n = from.read(input)?;
        if n == 0 {
            break;
        }
        line = answer_all(rt, &input[..n], line, out)?;
    }
    Ok(line)
}

// A line that was cut by a read or a write that failed has no answer.
fn main(rt: HostRuntime) {
    let mut input = [0u8; 65536];
    let mut out = [0u8; 262144];
    if let Ok(line) = answer_input(&rt, &mut rt.stdin(), &mut input, &mut out) {
        let used = tags_stream::finish(line, &mut out);
        let _ = rt.write_all(&out[..used]);
    }
}
