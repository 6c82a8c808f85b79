// An image's list of contents: its entries, and what they are refused for.
#![tactic(auto)]

pub mod entry;
pub mod refusal;
