// The words of an instruction that has several, all of them tested before the first store: two or three words, or the
// eight of LRB and SRB, read from or stored to their places.
#![tactic(auto)]

pub mod block_words;
pub mod location;
pub mod test;
pub mod words;
