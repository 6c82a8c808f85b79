// The second engine's cases of every unprivileged instruction at the ends of its ranges.
// The seven programs have one main: each is the gate's program for a group of cases (crates.txt).
#![tactic(auto)]

use std::io;

fn main(rt: HostRuntime) -> io::Result<()> {
    cases::check(&rt)?;
    Ok(())
}
