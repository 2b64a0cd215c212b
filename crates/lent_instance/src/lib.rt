// The promise of demand 3 at a list of calls on lent memory, computed (specs/, proofs/): no code.
#![tactic(auto)]
