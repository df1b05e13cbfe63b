// No code: the worked rows of document 01 are a table of definitions (specs/), and one proof about it (proofs/).
#![tactic(auto)]
