// What is said of the contracts of all public calls together (specs/), and its proof (proofs/): no code.
#![tactic(auto)]
