// Run to the first interrupt with device input.
ghost use Rattle.std.specs.Prelude.{◌≡◌, ◌≤◌, length, take};
ghost use Rattle.isa.specs.Answers.{run_numbers};
ghost use Rattle.isa.specs.DeviceInput.{given_of, input_run_call, input_run_told};
ghost use Rattle.run_input.specs.Inputs.{onto};
ghost use Rattle.operations.specs.Calls.{input_run_of};

use checks::parts_answer;
use isa::answer::{Ran, Refusal};
use isa::machine::State;
use run_input::run_with_input as run_parts;

// What a run with device input answers, how many inputs were handed in, and the state that it leaves.
#[derive(Clone, Copy)]
pub struct InputRunResult {
    pub answer: Result<Ran, Refusal>,
    pub handed: usize,
    pub state: State,
}

// A refused run is handed nothing and leaves the state as it came.
fn refused(s: State, x: Refusal) -> InputRunResult
    ensures { result ≡ record {
      answer = Err x;
      handed = 0;
      state = s;
    } }
{
    InputRunResult {
        answer: Err(x),
        handed: 0,
        state: s,
    }
}

// At most n steps, up to the first that gives an interrupt, or before a change of level. The input what[i] is handed in
// after at[i] steps, and what it was told is put to told[i]; the shortest of the three lists counts. An input is a
// word: below 256 the level to raise, 256 a tick, 257 a read out, 512 + c the character c. It is told 0 or its refusal;
// a read out the character, or 256 for none. Words of inputs not handed in stay. Refusals 1 and 2. Words that
// pass the first have page tables of 512.
#[tactic(auto, using(checks::proofs::Passed::run_needs))]
pub fn run_with_input(
    s: State,
    mem: &mut [u16],
    tables: &mut [u16],
    n: u64,
    at: &[u64],
    what: &[u16],
    told: &mut [u16],
) -> InputRunResult
    ensures tables_after { input_run_of result told.new mem.new tables.new
        ≡ input_run_call n (given_of (take (length told.old) at.now) what.now) s
        mem.old tables.old }
    ensures told_after { told.new ≡ onto (take result.handed told.new) told.old }
    ensures handed_in_bounds { result.handed ≤ length told.old }
    ensures answer_value { run_numbers result.answer
        ≡ input_run_told n (given_of (take (length told.old) at.now) what.now) s
        mem.old tables.old }
{
    let mut regs = s.regs;
    let mut pcrs = s.pcr;
    let k = s.control_words();
    match parts_answer(s.level, k, &regs, &pcrs, mem, tables) {
        Ok(()) => match tables.as_mut_array() {
            Some(tables) => {
                let r = run_parts(
                    s.level, k, &mut regs, &mut pcrs, mem, tables, n, at, what, told,
                );
                InputRunResult {
                    answer: Ok(Ran {
                        steps: r.steps,
                        reason: r.reason,
                        references: r.references,
                    }),
                    handed: r.handed,
                    state: State::with(r.level, r.control, regs, pcrs),
                }
            }
            None => refused(s, Refusal::Sizes),
        },
        Err(x) => refused(s, x),
    }
}
