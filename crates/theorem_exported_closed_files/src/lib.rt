// Holds the statement and the proof of the closed-file rule of the exported call `slc_pccc`.
#![tactic(auto)]
