// The lines of the line protocol (oracle/PROTOCOL.md): a call's word, what may stand before it, and its fields, read by their shapes.
mod calls;
mod fields;
mod kinds;
mod prefix;

use crate::answers::Fault;
pub use calls::Name;
pub use fields::Fields;
pub use kinds::Kind;
use prefix::Prefix;

// A call with its fields. The line begins with the call's word; the bytes of byte strings stand in `space`.
#[derive(Clone, Copy)]
pub struct Call<'a> {
    pub name: Name,
    // what the fields are that stand behind a KIND
    pub kind: Option<Kind>,
    // the tag is read as a new entry
    pub new: bool,
    // bytes or rows of the output
    pub room: usize,
    fields: Fields,
    line: &'a [u8],
    space: &'a [u8],
}

// What a line of the protocol says.
pub fn read<'a>(line: &'a [u8], space: &'a mut [u8]) -> Result<Call<'a>, Fault> {
    let p = prefix::of(line)?;
    let rest = &line[p.start.min(line.len())..];
    let name = calls::of_word(text::field(rest, 0)).ok_or(Fault::Call)?;
    if p.new && !name.has_reading() {
        return Err(Fault::Call);
    }
    let (kind, fields) = kinds::read(rest, name, space)?;
    Ok(Call {
        name,
        kind,
        new: p.new,
        room: p.room,
        fields,
        line: rest,
        space,
    })
}

impl<'a> Call<'a> {
    // Field i as it stands in the line, counted from 0 behind the call's word.
    pub fn written(&self, i: usize) -> &'a [u8] {
        text::field(self.line, i.saturating_add(1))
    }

    // The number or the code of field i.
    pub fn number(&self, i: usize) -> u64 {
        self.fields.place(i).n
    }

    pub fn word(&self, i: usize) -> u16 {
        (self.number(i) % 65536) as u16
    }

    pub fn byte(&self, i: usize) -> u8 {
        (self.number(i) % 256) as u8
    }

    // The bytes of field i.
    pub fn bytes(&self, i: usize) -> &'a [u8] {
        let place = self.fields.place(i);
        let rest = &self.space[place.from.min(self.space.len())..];
        &rest[..rest.len().min(place.n as usize)]
    }

    // Signed number i of the line.
    pub fn signed(&self, i: usize) -> i64 {
        self.fields.signed(i)
    }

    // The bits of the line's float.
    pub fn float(&self) -> u32 {
        self.fields.bits
    }
}
