// Sentences of document 01 that follow from the definitions, as laws of them. The statements are in
// specs/Statement.antt, their proofs in proofs/. No function.
#![tactic(auto)]
