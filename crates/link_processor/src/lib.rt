// The simulated processor's records of the C interface: what its calls answer, told in numbers.
#![tactic(auto)]

ghost use Rattle.std.specs.Prelude.{◌≡◌};
ghost use Rattle.link_processor.specs.ProcessorRecords.{done_of, built_of};

use processor_spec::{Built, Done, Slc};

// What a command answers: 0 and the length of the reply, or the number of the refusal.
#[repr(C)]
#[derive(Clone, Copy)]
pub struct SlcDone {
    pub slc: Slc,
    pub refused: u8,
    pub length: usize,
}

// What building answers.
#[repr(C)]
#[derive(Clone, Copy)]
pub struct SlcBuilt {
    pub slc: Slc,
    pub refused: u8,
}

#[tactic(auto, unfolding(crate::specs::ProcessorRecords::done_of))]
pub fn done_of(d: Done) -> SlcDone
    ensures { result ≡ done_of d }
{
    let slc = d.slc;
    match d.answered {
        Ok(length) => SlcDone {
            slc,
            refused: 0,
            length,
        },
        Err(e) => SlcDone {
            slc,
            refused: e.number(),
            length: 0,
        },
    }
}

#[tactic(auto, unfolding(crate::specs::ProcessorRecords::built_of))]
pub fn built_of(b: Built) -> SlcBuilt
    ensures { result ≡ built_of b }
{
    let slc = b.slc;
    match b.made {
        Ok(()) => SlcBuilt { slc, refused: 0 },
        Err(e) => SlcBuilt {
            slc,
            refused: e.number(),
        },
    }
}
