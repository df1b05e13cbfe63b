// The questions in front of what a command does, and its replies. specs/ has what it does behind them, by the query and the survey.
#![tactic(auto)]

ghost use Rattle.std.specs.Prelude.{◌≡◌, [], ◌∷◌};
ghost use Rattle.processor_spec.specs.Refusals.{refusal_of};
ghost use Rattle.processor_soundness.specs.Sound.{sound_by};
ghost use Rattle.processor_refinement.specs.CallBySurvey.{question_of};
ghost use Rattle.processor_refinement.specs.StepsBySurvey.{Told};

use base::Refusal;
use processor_spec::{Done, Slc};
use processor_table::Seen;

// The bytes of the longest reply: an id of 255, the 4 behind it, and 255 of data.
const ROOM: usize = 514;

// Is the state sound (16), is there room for any reply (17), is the command well-formed (18)? The first that is answered with no.
#[tactic(auto, unfolding(crate::specs::CallBySurvey::question_of))]
pub fn question(
    slc: Slc,
    s: Seen,
    memory: usize,
    log: &[u8],
    room: usize,
    command: &[u8],
) -> Result<(), Refusal>
    ensures { result ≡ refusal_of (question_of (sound_by slc s memory log.now) room command.now) }
{
    if !processor_soundness::sound(slc, s, memory, log) {
        return Err(Refusal::Unsound);
    }
    if room < ROOM {
        return Err(Refusal::ShortReplyMemory);
    }
    if !processor_frame::well_formed(command) {
        return Err(Refusal::MalformedCommand);
    }
    Ok(())
}

// A reply that changes nothing else; none to a command that isn't well-formed, or where there is no room for it.
pub fn answer(slc: Slc, command: &[u8], status: u8, bytes: &[u8], reply: &mut [u8]) -> Done
    ensures { Told command.now status bytes.now slc reply.old result reply.new }
{
    Done {
        slc,
        answered: Ok(processor_frame::reply_to(command, status, bytes, reply)),
    }
}

// The reply to a command that can't be carried out as it stands: status F0, extended 06.
pub fn bad(slc: Slc, command: &[u8], reply: &mut [u8]) -> Done
    ensures { Told command.now 0xF0 (0x06 ∷ []) slc reply.old result reply.new }
{
    answer(slc, command, 0xF0, &[0x06], reply)
}
