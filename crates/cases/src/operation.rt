// The operations, by number.
use crate::case::{Case, low};
use crate::machine::Machine;
use crate::told::Told;
use isa::answer::Target;
use std::array;

// What a case asks of the machine.
#[derive(Clone, Copy)]
pub(crate) enum Operation {
    Step,
    Run,
    RunToInterrupt,
    Raise,
    Load,
    Write,
    View,
    WriteAndLoad,
    Tick,
    TypeCharacter,
    ReadOut,
    RunWithInput,
}

// Below 16 a number counts modulo 8 (8 more is extended mode); so does one above, of an operation on the devices.
impl From<u64> for Operation {
    fn from(number: u64) -> Operation {
        match (number < 16, number % 8) {
            (true, 0) => Operation::Step,
            (true, 1) => Operation::Run,
            (true, 2) => Operation::RunToInterrupt,
            (true, 3) => Operation::Raise,
            (true, 4) => Operation::Load,
            (true, 5) => Operation::Write,
            (true, 6) => Operation::View,
            (true, _) => Operation::WriteAndLoad,
            (false, 0) => Operation::Tick,
            (false, 1) => Operation::TypeCharacter,
            (false, 3) => Operation::RunWithInput,
            (false, _) => Operation::ReadOut,
        }
    }
}

// The most inputs of a case.
const MOST_INPUTS: usize = 20;

// A run with device input. The inputs stand behind the first argument, a step and a word each.
fn run_with_input(case: Case<'_>, machine: &mut Machine<'_>, output: &mut [u16]) -> Told {
    let steps: [u64; MOST_INPUTS] = array::from_fn(|k| case.argument(k * 2 + 1));
    let words: [u16; MOST_INPUTS] = array::from_fn(|k| low(case.argument(k * 2 + 2)));
    let count = (case.argument_count() / 2).min(output.len());
    machine.run_with_input(case.argument(0), &steps, &words, &mut output[..count])
}

// The image that a case's arguments are.
fn load(case: Case<'_>, machine: &mut Machine<'_>, output: &mut [u16]) -> Told {
    let count = case.argument_count().min(output.len());
    let image = &mut output[..count];
    for (i, word) in image.iter_mut().enumerate() {
        *word = low(case.argument(i));
    }
    machine.load(image)
}

// Does a case's operation; an image, or what an operation writes, stands in `output`.
pub(crate) fn act(case: Case<'_>, machine: &mut Machine<'_>, output: &mut [u16]) -> Told {
    let first = case.argument(0);
    let written = (first as usize).min(output.len());
    match case.operation() {
        Operation::Step => machine.step(),
        Operation::Run => machine.run(first),
        Operation::RunToInterrupt => machine.run_to_interrupt(first),
        Operation::Raise => machine.raise(low(first)),
        Operation::Load => load(case, machine, output),
        Operation::Write => machine.write(&mut output[..written]),
        Operation::View => {
            let target = if first == 0 {
                Target::Memory
            } else {
                Target::Tables
            };
            machine.view(target, case.argument(1) as usize, case.argument(2) as usize)
        }
        Operation::WriteAndLoad => machine.write_and_load(&mut output[..written]),
        Operation::Tick => machine.tick(),
        Operation::TypeCharacter => machine.type_character((first % 256) as u8),
        Operation::ReadOut => machine.read_out(),
        Operation::RunWithInput => run_with_input(case, machine, output),
    }
}
