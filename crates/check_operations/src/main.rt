// The second engine's cases of runs, raise, images, views, refusals, every class of words, and steps from random
// machines.
// The seven programs have one main: each is the gate's program for a group of cases (crates.txt).
#![tactic(auto)]

use std::io;

fn main(rt: HostRuntime) -> io::Result<()> {
    cases::check(&rt)?;
    Ok(())
}
