// What is promised of a prune of a prune's answer (specs/), and its proof (proofs/): no code.
#![tactic(auto)]
