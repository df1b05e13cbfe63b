// The lists in a line that builds a processor: FILES and LOG of oracle/PROTOCOL.md, each read in one pass.
ghost use Rattle.std.specs.Prelude.{◌≡◌, ◌≤◌, length, take, IfOk};

use crate::answers::Fault;

// What is above 32 bits is held to 4,294,967,295, which is refused alike.
fn number(s: &[u8]) -> Result<u32, Fault> {
    let n = decimal::number(s).ok_or(Fault::Number)?;
    Ok(u32::try_from(n).unwrap_or(u32::MAX))
}

// CODE:number:elements, cut at its first two colons. The answer is number, code, elements.
fn file(s: &[u8]) -> Result<[u32; 3], Fault> {
    let code = text::code(text::part(s, b':', 0)).ok_or(Fault::Hex)?;
    let n = number(text::part(s, b':', 1))?;
    let elements = number(text::part(s, b':', 2))?;
    if 3 < text::parts(s, b':') {
        return Err(Fault::Number);
    }
    Ok([n, u32::from(code), elements])
}

// How many files a field has. Those behind the last row are only looked at: 256 numbers are all there are, so no list is accepted that has more.
pub fn files(s: &[u8], out: &mut [[u32; 3]]) -> Result<usize, Fault> {
    let mut n = 0;
    if text::is(s, b"-") {
        return Ok(n);
    }
    for part in s.split(|b| *b == b',') {
        let row = file(part)?;
        if let Some(place) = out.get_mut(n) {
            *place = row;
            n += 1;
        }
    }
    Ok(n)
}

// The bytes of a datalog entry: `.` for none, else digits.
fn entry(s: &[u8], space: &mut [u8]) -> Result<usize, Fault>
    ensures { IfOk result (λ n. (n ≤ length space.new) × (n ≡ length (take n space.new))) }
{
    let digits: &[u8] = match s {
        b"." => b"-",
        b"-" => b"",
        _ => s,
    };
    text::unhex(digits, space).ok_or(Fault::Hex)
}

// How many entries a field has; more than there may be where one is too long: both are question 15. They are laid end to end, each behind a length
// word. `space` is for the bytes of each.
pub fn log(s: &[u8], space: &mut [u8], out: &mut [u8]) -> Result<usize, Fault> {
    let mut n: usize = 0;
    if text::is(s, b"-") {
        return Ok(n);
    }
    let mut end = 0;
    let mut longest = 0;
    for part in s.split(|b| *b == b',') {
        let len = entry(part, space)?.min(space.len());
        end = base::put_number(out, end, 2, len as u64);
        end = base::put_all(out, end, &space[..len]);
        longest = longest.max(len);
        n = n.saturating_add(1);
    }
    Ok(if 255 < longest { n.max(65) } else { n })
}
