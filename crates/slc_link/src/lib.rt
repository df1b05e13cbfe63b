// The C interface: each function is a proved call, with its answer as a record. It is total: it answers whatever it is passed.
// A slice is a pointer and a length in C.
#![tactic(auto)]

mod directories;
mod elements;
mod file_types;
mod lines;
mod questions;
mod replies;
mod requests;
mod simulator;
mod texts;
