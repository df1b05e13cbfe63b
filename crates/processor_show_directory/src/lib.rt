// What a command does that asks for the directory. What the command says, what the file table holds and the directory are told by value.
#![tactic(auto)]

ghost use Rattle.std.specs.Prelude.{◌≡◌, true, [], ◌≤◌, length};
ghost use Rattle.processor_spec.specs.Frame.{well_formed};
ghost use Rattle.processor_spec.specs.Pccc.{left};
ghost use Rattle.processor_refinement.specs.StepsBySurvey.{Answers, tells, size_asked, directory_length, size_bytes, part_step, directory_step};
ghost use Rattle.processor_refinement.specs.CallBySurvey.{show_of};

use processor_query::{Layout, Query};
use processor_spec::{Done, Slc};
use processor_table::Seen;

// The directory's length.
#[tactic(auto, using(crate::proofs::DirectoryBytes::rows_small), unfolding(processor_refinement::specs::StepsBySurvey::directory_length))]
fn directory_length(s: Seen, l: Layout) -> usize
    ensures { (result ≡ directory_length s l) × (result ≤ 16711680) }
{
    usize::from(l.first) + usize::from(s.next) * usize::from(l.row)
}

// Is the size element asked for, with size 2 to 8?
#[tactic(auto, unfolding(processor_refinement::specs::StepsBySurvey::size_asked))]
fn size_asked(q: Query, l: Layout) -> bool
    ensures { result ≡ size_asked q l }
{
    q.element == u16::from(l.size_element) && 2 <= q.size && q.size <= 8
}

// The directory's length as a word, zero-padded.
fn tell_size(slc: Slc, n: usize, size: u8, command: &[u8], reply: &mut [u8]) -> Done
    requires command_value { well_formed command.now ≡ true }
    requires le_size { (2 ≤ size) × (size ≤ 8) }
    requires in_bounds { 514 ≤ length reply.old }
    ensures { Answers (tells command.now 0 (size_bytes n size)) slc [] reply.old result reply.new }
{
    let k = usize::from(size);
    let word = [(n % 256) as u8, (n / 256 % 256) as u8, 0, 0, 0, 0, 0, 0];
    processor_refinement::answer(slc, command, 0, &word[..k], reply)
}

// Bytes of the directory, which has `n`, and with which `d` begins.
fn list_part(slc: Slc, q: Query, n: usize, d: &[u8], command: &[u8], reply: &mut [u8]) -> Done
    requires command_value { well_formed command.now ≡ true }
    requires in_bounds { 514 ≤ length reply.old }
    ensures { Answers (part_step q n d.now command.now) slc [] reply.old result reply.new }
{
    let from = 2 * usize::from(q.element);
    let size = usize::from(q.size);
    if n < from + size {
        return processor_refinement::bad(slc, command, reply);
    }
    processor_refinement::answer(
        slc,
        command,
        0,
        processor_locate::part(d, from, size),
        reply,
    )
}

// What a command for the directory does; `d` begins with the directory.
fn list(slc: Slc, s: Seen, q: Query, l: Layout, d: &[u8], command: &[u8], reply: &mut [u8]) -> Done
    requires command_value { well_formed command.now ≡ true }
    requires in_bounds { 514 ≤ length reply.old }
    ensures { Answers (directory_step s q l d.now command.now) slc [] reply.old result reply.new }
{
    if q.code != l.code {
        return processor_refinement::bad(slc, command, reply);
    }
    let n = directory_length(s, l);
    if size_asked(q, l) {
        return tell_size(slc, n + usize::from(l.constant), q.size, command, reply);
    }
    list_part(slc, q, n, d, command, reply)
}

// The call, where the directory is asked for.
pub fn show(
    slc: Slc,
    s: Seen,
    q: Query,
    l: Layout,
    d: [u8; 2793],
    memory: &mut [u8],
    log: &[u8],
    command: &[u8],
    reply: &mut [u8],
) -> Done
    ensures { left result memory.new reply.new ≡ show_of slc s q l d memory.old log.now command.now reply.old }
{
    let asked = processor_refinement::question(slc, s, memory.len(), log, reply.len(), command);
    if let Err(refusal) = asked {
        return Done {
            slc,
            answered: Err(refusal),
        };
    }
    list(slc, s, q, l, &d, command, reply)
}
