// The covered core of `Slc::pccc`: what a command does that doesn't ask for the directory. What the command says and what the file table holds
// are told by value.
#![tactic(auto)]

ghost use Rattle.std.specs.Prelude.{◌≡◌, true, [], ◌≤◌, length};
ghost use Rattle.processor_spec.specs.Frame.{well_formed};
ghost use Rattle.processor_spec.specs.Pccc.{left, left_by};
ghost use Rattle.processor_soundness.specs.Sound.{good_log_by};
ghost use Rattle.processor_refinement.specs.StepsBySurvey.{Answers, status_step, pop_step, read_step, values_of, write_step, obey_step};
ghost use Rattle.processor_refinement.specs.CallBySurvey.{respond_of};

use processor_query::{Query, Wants};
use processor_spec::{Done, Slc};
use processor_table::Seen;

// The diagnostic status.
fn diagnose(slc: Slc, command: &[u8], reply: &mut [u8]) -> Done
    requires command_value { well_formed command.now ≡ true }
    requires in_bounds { 514 ≤ length reply.old }
    ensures { Answers (status_step slc command.now) slc [] reply.old result reply.new }
{
    let text = slc.type_text;
    let d = processor_frame::diagnostic(text, slc.type_len);
    processor_refinement::answer(slc, command, 0, &d, reply)
}

// The oldest datalog entry, whole, and it leaves the queue; none left: status 10.
fn pop(slc: Slc, log: &[u8], command: &[u8], reply: &mut [u8]) -> Done
    requires command_value { well_formed command.now ≡ true }
    requires log_value { good_log_by slc log.now ≡ true }
    requires in_bounds { 514 ≤ length reply.old }
    ensures { Answers (pop_step slc log.now command.now) slc log.now reply.old result reply.new }
{
    if slc.log_left == 0 {
        return processor_refinement::answer(slc, command, 0x10, &command[..0], reply);
    }
    let text = slc.type_text;
    let at = slc.log_at;
    let n = usize::from(base::word_at(log, at));
    let rest = Slc {
        files: slc.files,
        type_text: text,
        type_len: slc.type_len,
        log_at: at + (2 + n),
        log_left: slc.log_left - 1,
    };
    processor_refinement::answer(
        rest,
        command,
        0,
        processor_locate::part(log, at + 2, n),
        reply,
    )
}

// Bytes of a file.
fn fetch(slc: Slc, s: Seen, q: Query, memory: &[u8], command: &[u8], reply: &mut [u8]) -> Done
    requires command_value { well_formed command.now ≡ true }
    requires in_bounds { 514 ≤ length reply.old }
    ensures { Answers (read_step s q memory.now command.now) slc [] reply.old result reply.new }
{
    let Some(at) = processor_locate::locate(s, q) else {
        return processor_refinement::bad(slc, command, reply);
    };
    processor_refinement::answer(
        slc,
        command,
        0,
        processor_locate::part(memory, at, usize::from(q.size)),
        reply,
    )
}

// The values of a write: bytes of its parameters.
fn values(q: Query, command: &[u8]) -> &[u8]
    ensures { result.now ≡ values_of q command.now }
{
    let n = processor_frame::id_len(command);
    let parameters = processor_locate::part(command, n + 5, command.len());
    processor_locate::part(parameters, q.place, usize::from(q.size))
}

// A masked write to a file.
fn store(slc: Slc, s: Seen, q: Query, memory: &mut [u8], command: &[u8], reply: &mut [u8]) -> Done
    requires command_value { well_formed command.now ≡ true }
    requires in_bounds { 514 ≤ length reply.old }
    ensures { left result memory.new reply.new ≡ left_by (write_step s q memory.old command.now) slc memory.old [] reply.old }
{
    let Some(at) = processor_locate::locate(s, q) else {
        return processor_refinement::bad(slc, command, reply);
    };
    processor_masked_write::masked_write(memory, at, q.mask, values(q, command));
    processor_refinement::answer(slc, command, 0, &command[..0], reply)
}

// What a well-formed command does that doesn't ask for the directory.
fn obey(
    slc: Slc,
    s: Seen,
    q: Query,
    memory: &mut [u8],
    log: &[u8],
    command: &[u8],
    reply: &mut [u8],
) -> Done
    requires command_value { well_formed command.now ≡ true }
    requires log_value { good_log_by slc log.now ≡ true }
    requires in_bounds { 514 ≤ length reply.old }
    ensures { left result memory.new reply.new ≡ left_by (obey_step q.wants slc s q memory.old log.now command.now) slc memory.old log.now reply.old }
{
    match q.wants {
        Wants::Illegal => processor_refinement::answer(slc, command, 0x10, &command[..0], reply),
        Wants::Bad => processor_refinement::bad(slc, command, reply),
        Wants::Diagnostic => diagnose(slc, command, reply),
        Wants::Entry => pop(slc, log, command, reply),
        Wants::Directory(_) => processor_refinement::bad(slc, command, reply),
        Wants::Read => fetch(slc, s, q, memory, command, reply),
        Wants::Write => store(slc, s, q, memory, command, reply),
    }
}

// The call, where the directory isn't asked for.
pub fn respond(
    slc: Slc,
    s: Seen,
    q: Query,
    memory: &mut [u8],
    log: &[u8],
    command: &[u8],
    reply: &mut [u8],
) -> Done
    ensures { left result memory.new reply.new ≡ respond_of slc s q memory.old log.now command.now reply.old }
{
    let asked = processor_refinement::question(slc, s, memory.len(), log, reply.len(), command);
    if let Err(refusal) = asked {
        return Done {
            slc,
            answered: Err(refusal),
        };
    }
    obey(slc, s, q, memory, log, command, reply)
}
