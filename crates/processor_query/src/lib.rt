// What a command says, read once, by its bytes and the type text alone.
#![tactic(auto)]

mod functions;

ghost use Rattle.std.specs.Prelude.{◌≡◌, ◌≤◌, length, take, drop};
ghost use Rattle.processor_spec.specs.Params.{last_address, mask_word, header as params_header};
ghost use Rattle.directory_sys0.specs.Families.{sys0 as families_sys0};
ghost use Rattle.processor_params.specs.Take.{placed};
ghost use Rattle.processor_query.specs.Query.{header_in, plainly, said, wanted, layout_of, directory_wanted, directory_query, access_query, file_query, function_query, query_of};

use processor_params::Header;
use processor_spec::Slc;

// Where the directory lies, by the processor's family.
#[derive(Clone, Copy)]
pub struct Layout {
    // place of the first row
    pub first: u8,
    pub row: u8,
    // type code that reads the directory
    pub code: u8,
    // element that holds the directory's size
    pub size_element: u8,
    // what the processor adds to the size
    pub constant: u16,
}

// What is wanted: nothing that is legal (status 10), nothing that can be had (status F0, extended 06), the diagnostic status, the oldest datalog
// entry, the directory, or bytes of a file.
#[derive(Clone, Copy)]
pub enum Wants {
    Illegal,
    Bad,
    Diagnostic,
    Entry,
    Directory(Layout),
    Read,
    Write,
}

#[derive(Clone, Copy)]
pub struct Query {
    // the file that is asked for, 0 where none is
    pub number: u16,
    pub wants: Wants,
    pub size: u8,
    pub code: u8,
    pub element: u16,
    // last address
    pub sub: u16,
    pub mask: u16,
    // where the value bytes begin behind the function byte
    pub place: usize,
}

impl Query {
    // Where the directory lies, where that is wanted.
    pub fn directory(self) -> Option<Layout>
        ensures { result ≡ directory_wanted self.wants }
    {
        match self.wants {
            Wants::Directory(layout) => Some(layout),
            _ => None,
        }
    }
}

// A query that tells of no file.
fn plain(wants: Wants) -> Query
    ensures { result ≡ plainly wants }
{
    Query {
        number: 0,
        wants,
        size: 0,
        code: 0,
        element: 0,
        sub: 0,
        mask: 0,
        place: 0,
    }
}

// The last address and the place behind it; function A1 has none and takes 0.
fn last_address(function: u8, s: &[u8], at: usize) -> Option<(u16, usize)>
    requires { at ≤ length s.now }
    ensures { result ≡ placed s.now (last_address function (drop at s.now)) }
{
    if function == 0xA1 {
        return Some((0, at));
    }
    processor_params::address_at(s, at)
}

// The mask and the place behind it; only function AB has one, the others take FFFF.
fn mask_word(function: u8, s: &[u8], at: usize) -> Option<(u16, usize)>
    requires { at ≤ length s.now }
    ensures { result ≡ placed s.now (mask_word function (drop at s.now)) }
{
    if function != 0xAB {
        return Some((0xFFFF, at));
    }
    if s.len() - at < 2 {
        return None;
    }
    Some((base::word_at(s, at), at + 2))
}

fn access(wants: Wants, h: Header, sub: u16, mask: u16, place: usize) -> Query
    ensures { result ≡ access_query wants (header_in h) sub mask place }
{
    Query {
        number: h.file,
        wants,
        size: h.size,
        code: h.code,
        element: h.element,
        sub,
        mask,
        place,
    }
}

// What is wanted of a file: the last address, the mask and the value bytes must be there.
fn file_query(function: u8, h: Header, s: &[u8]) -> Option<Query>
    requires { h.next ≤ length s.now }
    ensures { result ≡ said (file_query s.now function (header_in h) (drop h.next s.now)) }
{
    let (sub, at) = last_address(function, s, h.next)?;
    let (mask, place) = mask_word(function, s, at)?;
    if !functions::writes(function) {
        return Some(access(Wants::Read, h, sub, mask, place));
    }
    if s.len() - place < usize::from(h.size) {
        return None;
    }
    Some(access(Wants::Write, h, sub, mask, place))
}

// The layout for a type text, of which the first bytes count.
fn family_layout(text: [u8; 11], len: usize) -> Layout
    ensures { result ≡ layout_of (families_sys0 (take len text)) }
{
    let info = directory_sys0::sys0_info(&text[..len.min(11)]);
    Layout {
        first: info.file_position as u8,
        row: info.row_size as u8,
        code: info.file_type,
        size_element: info.size_element,
        constant: info.size_const,
    }
}

fn directory_query(slc: Slc, h: Header) -> Query
    ensures { result ≡ directory_query (families_sys0 (take slc.type_len slc.type_text)) (header_in h) }
{
    let layout = family_layout(slc.type_text, slc.type_len);
    Query {
        size: h.size,
        code: h.code,
        element: h.element,
        ..plain(Wants::Directory(layout))
    }
}

// CMD 0x0F: the questions in their order; none: bad.
fn function_query(slc: Slc, function: u8, s: &[u8]) -> Option<Query>
    ensures { wanted result ≡ function_query (take slc.type_len slc.type_text) function s.now (params_header s.now) }
{
    let h = processor_params::read_header(s)?;
    if !functions::known_function(function) {
        return Some(plain(Wants::Illegal));
    }
    if functions::asks_directory(function, h.file) {
        return Some(directory_query(slc, h));
    }
    if functions::asks_datalog(function, h.code) {
        return Some(plain(Wants::Entry));
    }
    file_query(function, h, s)
}

// What a command says. The bytes behind the function byte are handed on as a part.
pub fn asked(slc: Slc, command: &[u8]) -> Query
    ensures { result ≡ query_of slc command.now }
{
    let n = processor_frame::id_len(command);
    if command.len() < n + 5 {
        return plain(Wants::Illegal);
    }
    let function = command[n + 4];
    if command[n] == 0x0F {
        return function_query(slc, function, &command[n + 5..]).unwrap_or(plain(Wants::Bad));
    }
    if command[n] == 0x06 && function == 0x03 {
        return plain(Wants::Diagnostic);
    }
    plain(Wants::Illegal)
}
