// Demand 2, its last sentence: writing an image and loading it into as much memory gives the same machine. The
// statement is in specs/Statement.antt, its proof in proofs/. No function.
#![tactic(auto)]
