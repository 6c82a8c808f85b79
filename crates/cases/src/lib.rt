// Cases of the second engine, run by the proved one: standard input has a case a line, standard output gets an answer a
// line (rust/second/NOTES.md has the format). No contract can say what is read and written.
#![tactic(auto)]

ghost use Rattle.std.specs.Prelude.{◌≡◌, ◌≤◌, length, IfOk};

use crate::case::Case;
use crate::conversion::{long_converted, short_converted};
use crate::machine::Machine;
use crate::numbers::put_numbers;
use crate::operation::act;
use reading::read_full;
use std::io;

mod base;
mod case;
mod checksum;
mod conversion;
mod machine;
mod numbers;
mod operation;
mod told;

// The most cases that are answered.
const MOST_CASES: usize = 100000;

// What is read, the numbers in it, and the words that a case is lent, all 0: no vectors, since callers would have to
// lend an allocator, which can fail. The lengths are what lending the arrays as slices needs.
fn text_bytes() -> [u8; 524288]
    ensures { 524288 ≡ length result }
{
    [0; 524288]
}

fn case_numbers() -> [u64; 196608]
    ensures { 196608 ≡ length result }
{
    [0; 196608]
}

fn memory_words() -> [u16; 525312]
    ensures { 525312 ≡ length result }
{
    [0; 525312]
}

fn table_words() -> [u16; 1024]
    ensures { 1024 ≡ length result }
{
    [0; 1024]
}

fn output_words() -> [u16; 70000]
    ensures { 70000 ≡ length result }
{
    [0; 70000]
}

// Answers a case: of two or three numbers it is a conversion of the floating forms, else one of the machine.
fn answer(
    rt: &impl Print,
    case: Case<'_>,
    memory: &mut [u16],
    tables: &mut [u16],
    output: &mut [u16],
) -> io::Result<()> {
    match case.count {
        2 => short_converted(rt, case),
        3 => long_converted(rt, case),
        _ => {
            let mut machine = Machine::of(case, memory, tables);
            let told = act(case, &mut machine, output);
            machine.show(rt, told)
        }
    }
}

// Reads the cases and answers them; the bytes read. The one error is that of a write that failed: the answers end
// there. A case is followed by the one that stands behind as many numbers as it counts; a count may lead back, so that
// the cases are counted.
pub fn check(rt: &(impl Input + Print)) -> io::Result<usize>
    ensures { IfOk result (λ n. n ≤ 524288) }
{
    let mut text = text_bytes();
    let mut numbers = case_numbers();
    let mut memory = memory_words();
    let mut tables = table_words();
    let mut output = output_words();
    let read = read_full(&mut rt.reader(), &mut text);
    let count = put_numbers(&text[..read], &mut numbers);
    let mut at: usize = 0;
    for _ in 0..MOST_CASES {
        if count <= at {
            break;
        }
        let case = Case::new(&numbers[at..]);
        answer(rt, case, &mut memory, &mut tables, &mut output)?;
        at = at.wrapping_add(case.count as usize).wrapping_add(1);
    }
    Ok(read)
}
