#![tactic(auto)]
// The small circuits of 01 with known results. Their rows are proved in proofs/; there is no code.
