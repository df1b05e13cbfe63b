// No code: what a read request tells about its address (specs/), proved of the definition and of the calls, and that the processor reads what the request
// builders write (proofs/).
#![tactic(auto)]
