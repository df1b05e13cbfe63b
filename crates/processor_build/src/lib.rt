// Building a processor, `Slc::new`, in three parts: `judge` puts the questions, the records are laid in the lent table, each made by
// `record_of`, and `finish` clears the data and gives the processor.
#![tactic(auto)]

ghost use Rattle.std.specs.Prelude.{◌≡◌, min, map, length, replicate};
ghost use Rattle.base.specs.Put.{put};
ghost use Rattle.element_text.specs.Text.{fitted};
ghost use Rattle.processor_spec.specs.Build.{plan_of, no_slc, wanted_of, or_defaults};
ghost use Rattle.processor_build_spec.specs.Plans.{list_judged, judged_of, record_of, slc_with, ended, finish_of};

use base::Refusal;
use processor_build_spec::Sums;
use processor_spec::{Built, FileRecord, Slc};

// The files of an empty list, O to F: number, type code, elements.
const DEFAULTS: [[u32; 3]; 9] = [
    [0, 0x82, 8],
    [1, 0x83, 8],
    [2, 0x84, 83],
    [3, 0x85, 32],
    [4, 0x86, 16],
    [5, 0x87, 16],
    [6, 0x88, 8],
    [7, 0x89, 100],
    [8, 0x8A, 50],
];

fn or_defaults(files: &[[u32; 3]]) -> &[[u32; 3]]
    ensures { map wanted_of result.now ≡ or_defaults (map wanted_of files.now) }
{
    if files.is_empty() {
        return &DEFAULTS;
    }
    files
}

// 11 and 12 for each file in turn, then 13, 14, 15.
fn judge_list(
    files: &[[u32; 3]],
    text: &[u8],
    log: &[u8],
    count: usize,
    table_length: usize,
    memory_length: usize,
) -> Result<Sums, Refusal>
    ensures { result ≡ list_judged files.now text.now log.now count table_length memory_length }
{
    processor_build_files::refused(files)?;
    if !processor_soundness::good_text(type_text(text), text.len()) {
        return Err(Refusal::UnusableTypeText);
    }
    let sums = processor_build_files::summed(files);
    if !sums.fit(table_length, memory_length) {
        return Err(Refusal::FilesBeyondRoom);
    }
    if !processor_soundness::good_log(log, 0, count) {
        return Err(Refusal::UnusableDatalog);
    }
    Ok(sums)
}

// Puts the questions of building: the files, each a number, a type code and how many elements it has, the type text, the datalog's
// memory and how many entries it has, and how long the lent table and the data memory are.
pub fn judge(
    files: &[[u32; 3]],
    text: &[u8],
    log: &[u8],
    count: usize,
    table_length: usize,
    memory_length: usize,
) -> Result<Sums, Refusal>
    ensures { result ≡ judged_of (plan_of files.now text.now log.now count) table_length memory_length }
{
    judge_list(
        or_defaults(files),
        text,
        log,
        count,
        table_length,
        memory_length,
    )
}

// The i-th record, in ascending order of the numbers, end to end.
pub fn record_of(files: &[[u32; 3]], i: usize) -> FileRecord
    ensures { result ≡ record_of files.now i }
{
    processor_build_files::record_in(or_defaults(files), i)
}

fn clear(memory: &mut [u8], total: usize)
    ensures { memory.new ≡ put memory.old 0 (replicate (min total (length memory.old)) 0) }
{
    let n = total.min(memory.len());
    memory[..n].fill(0);
}

// The type text in its array, with zeros behind it.
fn type_text(text: &[u8]) -> [u8; 11]
    ensures { result ≡ fitted 11 0 text.now }
{
    let mut bytes = [0u8; 11];
    let n = text.len().min(11);
    bytes[..n].copy_from_slice(&text[..n]);
    bytes
}

fn slc_with(files: usize, text: &[u8], count: usize) -> Slc
    ensures { result ≡ slc_with files text.now count }
{
    Slc {
        files,
        type_text: type_text(text),
        type_len: text.len(),
        log_at: 0,
        log_left: count,
    }
}

fn no_slc() -> Slc
    ensures { result ≡ no_slc }
{
    Slc {
        files: 0,
        type_text: [0u8; 11],
        type_len: 0,
        log_at: 0,
        log_left: 0,
    }
}

// The processor, with its data cleared; or the refusal, which changes nothing.
pub fn finish(judged: Result<Sums, Refusal>, text: &[u8], count: usize, memory: &mut [u8]) -> Built
    ensures { ended result memory.new ≡ finish_of judged text.now count memory.old }
{
    match judged {
        Err(refusal) => Built {
            slc: no_slc(),
            made: Err(refusal),
        },
        Ok(sums) => {
            clear(memory, sums.total);
            Built {
                slc: slc_with(sums.records, text, count),
                made: Ok(()),
            }
        }
    }
}
