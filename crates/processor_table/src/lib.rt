// The lent list of file records: one pass tells whether it is sound, and the record that is sought.
#![tactic(auto)]

ghost use Rattle.std.specs.Prelude.{◌≡◌};
ghost use Rattle.processor_table.specs.Survey.{lost_of, survey_of};
ghost use Rattle.processor_table.specs.SurveySteps.{whole_of, follows_of, first_number, begun_of, passed_of, found_in, concluded_of};

use processor_spec::FileRecord;

// What one pass over the records in use tells. Of unsound records it tells nothing.
#[derive(Clone, Copy)]
pub struct Seen {
    pub sound: bool,
    // one above the last number
    pub next: u16,
    // bytes of all files
    pub total: u16,
    // the number that is sought, and its record, where there is one
    pub number: u16,
    pub found: Option<FileRecord>,
}

// Is the type code one of the simulator's twelve, and the length a multiple of its element size? Constant divisors, as this is asked of each record.
fn whole(code: u8, length: u16) -> bool
    ensures { result ≡ whole_of code length }
{
    match code {
        0x82..=0x85 => length % 2 == 0,
        0x86..=0x88 => length % 6 == 0,
        0x89 | 0x8E => length % 2 == 0,
        0x8A | 0x91 => length % 4 == 0,
        0x8D => length % 84 == 0,
        _ => false,
    }
}

// What the pass has seen so far. A record that may not follow makes `next` 65,535, so that none may follow it.
// Of the record found it holds the fields apart, and a code of 0 until there is one: they then stay in registers.
#[derive(Clone, Copy)]
pub struct Pass {
    pub next: u16,
    pub total: u32,
    pub number: u16,
    pub code: u8,
    pub start: u16,
    pub length: u16,
}

// May the record follow records with numbers below `next` that end at data byte `total`?
#[tactic(auto, unfolding(crate::specs::SurveySteps::follows_of))]
fn follows(next: u16, total: u32, r: FileRecord) -> bool
    ensures { result ≡ follows_of next total r }
{
    next <= r.number && r.number <= 255 && u32::from(r.start) == total && whole(r.code, r.length)
}

// The least number that the first of n records may have, in a table that holds so many: 65,535, which none has, where n is 0 or the table holds fewer.
#[tactic(auto, unfolding(crate::specs::SurveySteps::first_number))]
fn first_number(n: usize, held: usize) -> u16
    ensures { result ≡ first_number n held }
{
    if 0 < n && n <= held { 0 } else { 65535 }
}

// What is seen before the first of them.
#[tactic(auto, unfolding(crate::specs::SurveySteps::begun_of))]
pub fn begin(n: usize, held: usize, number: u16) -> Pass
    ensures { result ≡ begun_of n held number }
{
    Pass {
        next: first_number(n, held),
        total: 0,
        number,
        code: 0,
        start: 0,
        length: 0,
    }
}

// What is seen with one record more. Each path makes a new struct: one that is handed on would go through memory.
// The record's fields come one by one: a record that is handed on whole is loaded whole, and taken apart by shifts.
#[tactic(auto, unfolding(crate::specs::SurveySteps::passed_of))]
pub fn passed(s: Pass, number: u16, code: u8, start: u16, length: u16) -> Pass
    ensures { result ≡ passed_of s (record { number = number; code = code; start = start; length = length }) }
{
    let r = FileRecord {
        number,
        code,
        start,
        length,
    };
    if !follows(s.next, s.total, r) {
        return Pass {
            next: 65535,
            total: s.total,
            number: s.number,
            code: s.code,
            start: s.start,
            length: s.length,
        };
    }
    let next = r.number + 1;
    let total = s.total + u32::from(r.length);
    if r.number == s.number {
        return Pass {
            next,
            total,
            number: s.number,
            code: r.code,
            start: r.start,
            length: r.length,
        };
    }
    Pass {
        next,
        total,
        number: s.number,
        code: s.code,
        start: s.start,
        length: s.length,
    }
}

#[tactic(auto, unfolding(crate::specs::Survey::lost_of))]
fn lost(number: u16) -> Seen
    ensures { result ≡ lost_of number }
{
    Seen {
        sound: false,
        next: 0,
        total: 0,
        number,
        found: None,
    }
}

// The record that was found.
fn found(s: Pass) -> Option<FileRecord>
    ensures { result ≡ found_in s }
{
    if s.code == 0 {
        return None;
    }
    Some(FileRecord {
        number: s.number,
        code: s.code,
        start: s.start,
        length: s.length,
    })
}

// What the whole pass tells.
#[tactic(auto, unfolding(crate::specs::SurveySteps::concluded_of))]
pub fn conclude(s: Pass) -> Seen
    ensures { result ≡ concluded_of s }
{
    if 256 < s.next || 65535 < s.total {
        return lost(s.number);
    }
    Seen {
        sound: true,
        next: s.next,
        total: s.total as u16,
        number: s.number,
        found: found(s),
    }
}

// The first n records, in one pass.
pub fn survey(table: &[FileRecord], n: usize, number: u16) -> Seen
    ensures { result ≡ survey_of table.now n number }
{
    let mut s = begin(n, table.len(), number);
    let rows = &table[..n.min(table.len())];
    for r in rows {
        s = passed(s, r.number, r.code, r.start, r.length);
    }
    conclude(s)
}
