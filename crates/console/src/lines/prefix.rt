// `new` and `room ROOM` before a call, in either order, each at most once.
use crate::answers::Fault;

#[derive(Clone, Copy)]
pub struct Prefix {
    pub new: bool,
    pub room: usize,
    // where the call begins
    pub start: usize,
}

impl Prefix {
    fn rest(self, line: &[u8]) -> &[u8] {
        &line[self.start.min(line.len())..]
    }

    // With `new`, if it stands here.
    fn with_new(self, line: &[u8]) -> Result<Prefix, Fault> {
        let rest = self.rest(line);
        if !text::is(text::field(rest, 0), b"new") {
            return Ok(self);
        }
        if text::fields(rest) < 2 {
            return Err(Fault::Fields);
        }
        Ok(Prefix {
            new: true,
            room: self.room,
            start: self.start.saturating_add(4),
        })
    }

    // With `room ROOM`, if it stands here.
    fn with_room(self, line: &[u8]) -> Result<Prefix, Fault> {
        let rest = self.rest(line);
        if !text::is(text::field(rest, 0), b"room") {
            return Ok(self);
        }
        if text::fields(rest) < 3 {
            return Err(Fault::Fields);
        }
        let digits = text::field(rest, 1);
        let room = decimal::number(digits).ok_or(Fault::Number)? as usize;
        Ok(Prefix {
            new: self.new,
            room,
            start: self.start.saturating_add(6).saturating_add(digits.len()),
        })
    }
}

pub fn of(line: &[u8]) -> Result<Prefix, Fault> {
    let none = Prefix {
        new: false,
        room: 65535,
        start: 0,
    };
    let p = none.with_new(line)?.with_room(line)?;
    if p.new {
        return Ok(p);
    }
    p.with_new(line)
}
