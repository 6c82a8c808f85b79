// The stages of an unprivileged instruction over the running level's registers, memory and tables: the effective
// address, then the instruction's request there, with its accesses, what is made of the words read, and the words
// stored; and the ring after a fetch. An event names what is left to be done.
#![tactic(auto)]

mod address;
pub mod fetch;
pub mod request;
mod several;
pub mod single;
pub mod update;
pub mod user;
