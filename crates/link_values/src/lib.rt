// The record of the C interface for a value of a read reply, and the values by the record of an address.
#![tactic(auto)]

ghost use Rattle.std.specs.Prelude.{◌≡◌, length};
ghost use Rattle.file_type.specs.Table.{of_code};
ghost use Rattle.reply_values_spec.specs.Values.{asked};
ghost use Rattle.link_values.specs.ValueRecords.{told, value_record, reply_record, values_in, ReadsInRecord};

use base::Refusal;
use file_type::FileType;
use link_requests::requests::SlcAddress;
use reply_values::ReplyValue;

// The kinds of a write.
const FALSE: u8 = 1;

const TRUE: u8 = 2;

const LATIN1: u8 = 3;

const WORD: u8 = 4;

const LONG: u8 = 5;

const REAL: u8 = 6;

// A value by its kind, and how many values the reply has. Text stands in the lent memory.
#[repr(C)]
#[derive(Clone, Copy)]
pub struct SlcReplyValue {
    pub refused: u8,
    pub kind: u8,
    pub number: i64,
    pub length: usize,
    pub count: usize,
}

#[tactic(auto, unfolding(crate::specs::ValueRecords::told))]
fn value(kind: u8, number: i64, length: usize, count: usize) -> SlcReplyValue
    ensures { result ≡ told kind number length count }
{
    SlcReplyValue {
        refused: 0,
        kind,
        number,
        length,
        count,
    }
}

fn value_record(v: ReplyValue, count: usize) -> SlcReplyValue
    ensures { result ≡ value_record v count }
{
    match v {
        ReplyValue::Word(n) => value(WORD, i64::from(n), 0, count),
        ReplyValue::Long(n) => value(LONG, i64::from(n), 0, count),
        ReplyValue::Float(b) => value(REAL, i64::from(b), 0, count),
        ReplyValue::Bit(true) => value(TRUE, 1, 0, count),
        ReplyValue::Bit(false) => value(FALSE, 0, 0, count),
        ReplyValue::Text(n) => value(LATIN1, 0, n, count),
    }
}

pub fn reply_record(r: Result<(ReplyValue, usize), Refusal>) -> SlcReplyValue
    ensures { result ≡ reply_record r }
{
    match r {
        Ok((v, count)) => value_record(v, count),
        Err(e) => SlcReplyValue {
            refused: e.number(),
            kind: 0,
            number: 0,
            length: 0,
            count: 0,
        },
    }
}

// A value by the record of an address, of which the type code, the bit and the sub-element are looked at; 27 where no type has the code.
pub fn parse_read_data(x: SlcAddress, bytes: &[u8], index: usize, out: &mut [u8]) -> SlcReplyValue
    ensures { ReadsInRecord (asked index (length out.old) (values_in (of_code x.code) x.bit x.sub_element bytes.now)) out.old result out.new }
{
    match FileType::from_code(x.code) {
        Some(t) => reply_record(reply_values::parse_typed(
            t,
            x.bit != 0,
            x.sub_element,
            bytes,
            index,
            out,
        )),
        None => reply_record(Err(Refusal::UnreadableReply)),
    }
}
