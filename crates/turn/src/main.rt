// Reads an image from standard input, runs it and prints how that ended, as document 01 has it. One byte more than an
// image may have is read, so that a longer input is seen to be longer.
#![tactic(auto)]

use reading::read_full;
use std::io;
use turn_text::printing::text_of;
use turn_text::{LARGEST_INPUT, turn};

fn main(rt: HostRuntime) -> io::Result<()> {
    let mut input = [0u8; LARGEST_INPUT + 1];
    let n = read_full(&mut rt.stdin(), &mut input);
    let text = text_of(turn(&input[..n]));
    rt.write_all(text.as_bytes())
}
