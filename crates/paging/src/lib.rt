// One access to memory: its rights, its translation by the page tables, and the word at its place.
// Memory and tables are two parameters here and above, since hosts lend them as two: a struct of both borrows would put
// what each clause says of them behind two references. That the tables' numbers in Rights are below 4 is asked where an
// entry is looked up: on_ring and by_flags promise their answers for any Rights, so that it can't be Rights' invariant.
#![tactic(auto)]

pub mod entry;
pub mod failure;
pub mod physical;
pub mod place;
pub mod rights;
pub mod translation;
