// No code: proofs/Contracts.antt says that the contracts of `pccc` and of `read_request` are what demand 3 and A8 are proved of.
#![tactic(auto)]
