// Demand 3: two machines side by side. The statement is in specs/Statement.antt, in specs/Example.antt a worked
// example, two machines that differ in a foreign page; the proofs are in proofs/. No function.
#![tactic(auto)]
