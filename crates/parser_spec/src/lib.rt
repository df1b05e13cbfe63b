// A text read part by part: the definitions, and what holds of whatever a part reads.
#![tactic(auto)]
