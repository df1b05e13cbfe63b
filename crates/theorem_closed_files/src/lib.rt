// Holds the statement and the proof of the closed-file rule.
#![tactic(auto)]
