// A step, a run, and what is handed in between steps keep every state in range: the statement is in specs/Sound.antt,
// the laws are in proofs/. No function.
#![tactic(auto)]
