// No code: proofs/Replies.antt says that the calls for a reply from the requester's id on read what the processor put there.
#![tactic(auto)]
