// The second engine's cases of the console and the clock: registers, IDENT, what is handed in between steps, images and
// runs with device input, in both modes.
// The seven programs have one main: each is the gate's program for a group of cases (crates.txt).
#![tactic(auto)]

use std::io;

fn main(rt: HostRuntime) -> io::Result<()> {
    cases::check(&rt)?;
    Ok(())
}
