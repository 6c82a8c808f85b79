// What an event leaves to be done outside the running level: other levels, PCRs, and register blocks.
#![tactic(auto)]

mod block;
pub mod settle;
