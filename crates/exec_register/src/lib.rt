// The unprivileged instructions that work on the registers alone: the running level's file, of which P is one further,
// goes in by value and is returned changed.
#![tactic(auto)]

mod bit;
mod calculation;
pub mod complete;
mod jump;
pub mod operand;
mod shift;
pub mod skip;
pub mod sum;
