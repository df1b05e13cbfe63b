// No code: `proofs/Lent.antt` has the law of a local that is lent by `&mut` to one call.
#![tactic(auto)]
