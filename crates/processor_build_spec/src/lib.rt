// Building a processor, the plan: the definitions of its parts, how many records and bytes a list of files has, and question 14.
#![tactic(auto)]

ghost use Rattle.std.specs.Prelude.{◌≡◌};
ghost use Rattle.processor_build_spec.specs.Plans.{room_for};

// How many records and bytes a list of files has.
#[derive(Clone, Copy)]
pub struct Sums {
    pub records: usize,
    pub total: usize,
}

impl Sums {
    // 14: a total of at most 65,535, and the lent memories hold everything.
    #[tactic(auto, unfolding(crate::specs::Plans::room_for))]
    pub fn fit(self, table_length: usize, memory_length: usize) -> bool
        ensures { result ≡ room_for self.records self.total table_length memory_length }
    {
        self.total <= 65535 && self.records <= table_length && self.total <= memory_length
    }
}
