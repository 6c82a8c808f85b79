// Demand 3 of what is shipped: run to the first interrupt with device input from two memories, side by side.
ghost use Rattle.std.specs.Prelude.{length, take};
ghost use Rattle.isa.specs.DeviceInput.{given_of};
ghost use Rattle.operations.specs.Calls.{input_run_of};
ghost use Rattle.operations.specs.Pair.{SideBySide};

use crate::input::{InputRunResult, run_with_input};
use isa::machine::State;

// What the two runs answer.
#[derive(Clone, Copy)]
pub struct Pair {
    pub left: InputRunResult,
    pub right: InputRunResult,
}

// Two machines of one state, each with its own lent words: memory, page tables, of which the right one has copies, and
// words for what its inputs are told, `said` and `told`. Each is run as the definition has it, at most n steps, with
// the same device input; where the starts are as demand 3 has them, so are the ends.
pub fn run_two(
    s: State,
    left: &mut [u16],
    tables: &mut [u16],
    right: &mut [u16],
    copies: &mut [u16],
    n: u64,
    at: &[u64],
    what: &[u16],
    said: &mut [u16],
    told: &mut [u16],
) -> Pair
    ensures { SideBySide s n (given_of (take (length said.old) at.now) what.now)
        (given_of (take (length told.old) at.now) what.now)
        left.old tables.old right.old copies.old
        (input_run_of result.left said.new left.new tables.new)
        (input_run_of result.right told.new right.new copies.new) }
{
    let a = run_with_input(s, left, tables, n, at, what, said);
    let b = run_with_input(s, right, copies, n, at, what, told);
    Pair { left: a, right: b }
}
