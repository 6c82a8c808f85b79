// Reading into a buffer of fixed size, for the programs.
#![tactic(auto)]

ghost use Rattle.std.specs.Prelude.{◌≤◌, length, take};
ghost use Rattle.std.specs.Io.KnownBytes.{Consumes};

use std::io::Read;

// Reads until the buffer is full, the input ends or a read fails; how many bytes. They are the input's next ones.
// (`read_exact` and `read_to_end` say nothing of the bytes before a read that fails.)
pub fn read_full<R: Read>(from: &mut R, to: &mut [u8]) -> usize
    ensures in_bounds { result ≤ length to.new }
    ensures bytes { Consumes (R.remaining from.old) (R.remaining from.new) (take result to.new) }
{
    let mut done = 0;
    while done < to.len() {
        match from.read(&mut to[done..]) {
            Ok(0) | Err(_) => break,
            Ok(n) => done += n,
        }
    }
    done
}
