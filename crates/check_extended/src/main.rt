// The second engine's cases of extended mode: SEX and REX, entries of two words, the window, the instructions by T and
// X, images, sizes and runs, in both modes.
// The seven programs have one main: each is the gate's program for a group of cases (crates.txt).
#![tactic(auto)]

use std::io;

fn main(rt: HostRuntime) -> io::Result<()> {
    cases::check(&rt)?;
    Ok(())
}
