// The privileged instructions that act on the running level and the control words alone, and internal interrupts.
#![tactic(auto)]

pub mod instruction;
pub mod internal;
pub mod interrupt;
