// The unprivileged instructions that make accesses: their addresses, what they ask for, and what they make of the
// words.
#![tactic(auto)]

pub mod address;
pub mod byte;
pub mod change;
pub mod indirect;
pub mod load;
pub mod request;
pub mod store;
