// Which refusals each call may answer (specs/), and that it answers no other (proofs/): no code.
#![tactic(auto)]
