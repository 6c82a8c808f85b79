// The second engine's cases of memory references: what runs answer for every instruction, fault and way to end, with
// device input too, in both modes.
// The seven programs have one main: each is the gate's program for a group of cases (crates.txt).
#![tactic(auto)]

use std::io;

fn main(rt: HostRuntime) -> io::Result<()> {
    cases::check(&rt)?;
    Ok(())
}
