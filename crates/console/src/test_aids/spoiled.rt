// `spoil KIND ..`: damages the processor's plain data, a test aid for question 16
use crate::answers::{Answer, Answered};
use crate::lines::{Call, Kind};
use crate::processors::plc::Plc;
use processor_spec::FileRecord;

// The kinds `files N`, `typelen N`, `logat N`, `logleft N`; `text I CODE`, `log I CODE`; `record I NUMBER CODE START LENGTH`.
pub fn spoil(call: Call<'_>, plc: &mut Plc) -> Answered {
    let n = call.number(1) as usize;
    match call.kind {
        Some(Kind::Files) => plc.slc.files = n,
        Some(Kind::TypeLen) => plc.slc.type_len = n,
        Some(Kind::LogAt) => plc.slc.log_at = n,
        Some(Kind::LogLeft) => plc.slc.log_left = n,
        _ => keep(call, plc),
    }
    Ok(Answer::Done)
}

fn keep(call: Call<'_>, plc: &mut Plc) {
    let i = usize::from(call.word(1));
    match call.kind {
        Some(Kind::TypeText) => plc.slc.type_text[i % 11] = call.byte(2),
        Some(Kind::Log) => {
            if let Some(place) = plc.log.get_mut(i) {
                *place = call.byte(2);
            }
        }
        _ => plc.table[i % 256] = record(call),
    }
}

fn record(call: Call<'_>) -> FileRecord {
    FileRecord {
        number: call.word(2),
        code: call.byte(3),
        start: call.word(4),
        length: call.word(5),
    }
}
