// The ND-110 of document 01: its types here, its definitions in specs/, laws about them in proofs/; and the numbers of
// answers. No engine code.
#![tactic(auto)]

pub mod access;
pub mod answer;
pub mod constant;
pub mod device;
pub mod instruction;
pub mod machine;
pub mod number;
