// The records of the C interface for addresses and requests, and what makes them of the calls' answers: C has no enums that hold values.
// `refused` is 0, or the number of the question that was answered with no.
#![tactic(auto)]

pub mod kinds;
pub mod requests;
