// Run through, and run to the first interrupt.
ghost use Rattle.std.specs.Prelude.{◌≡◌, true, false};
ghost use Rattle.isa.specs.Answers.{run_call, run_numbers, run_told};
ghost use Rattle.image_load.specs.Loading.{call_of};

use checks::parts_answer;
use isa::answer::{Answered, Ran, Refusal};
use isa::machine::State;
use run::run;

// A refused run leaves the state as it came.
fn refused(s: State, x: Refusal) -> Answered<Ran>
    ensures { result ≡ record {
      answer = Err x;
      state = s;
    } }
{
    Answered {
        answer: Err(x),
        state: s,
    }
}

// Either run: at most n steps, to the first interrupt or through. Refusals 1 and 2. Words that pass the first have page
// tables of 512.
#[tactic(auto, using(checks::proofs::Passed::run_needs))]
pub fn run_by(s: State, mem: &mut [u16], tables: &mut [u16], n: u64, first: bool) -> Answered<Ran>
    ensures tables_after { call_of result mem.new tables.new
        ≡ run_call first n s mem.old tables.old }
    ensures answer_value { run_numbers result.answer ≡ run_told first n s mem.old tables.old }
{
    let mut regs = s.regs;
    let mut pcrs = s.pcr;
    let k = s.control_words();
    match parts_answer(s.level, k, &regs, &pcrs, mem, tables) {
        Ok(()) => match tables.as_mut_array() {
            Some(tables) => {
                let r = run(s.level, k, &mut regs, &mut pcrs, mem, tables, n, first);
                Answered {
                    answer: Ok(Ran {
                        steps: r.steps,
                        reason: r.reason,
                        references: r.references,
                    }),
                    state: State::with(r.level, r.control, regs, pcrs),
                }
            }
            None => refused(s, Refusal::Sizes),
        },
        Err(x) => refused(s, x),
    }
}

// The two runs have names of their own, as hosts call them.
// At most n steps, interrupts and changes of level included.
pub fn through(s: State, mem: &mut [u16], tables: &mut [u16], n: u64) -> Answered<Ran>
    ensures tables_after { call_of result mem.new tables.new
        ≡ run_call false n s mem.old tables.old }
    ensures answer_value { run_numbers result.answer ≡ run_told false n s mem.old tables.old }
{
    run_by(s, mem, tables, n, false)
}

// At most n steps, up to the first that gives an interrupt, or before a change of level.
pub fn to_interrupt(s: State, mem: &mut [u16], tables: &mut [u16], n: u64) -> Answered<Ran>
    ensures tables_after { call_of result mem.new tables.new
        ≡ run_call true n s mem.old tables.old }
    ensures answer_value { run_numbers result.answer ≡ run_told true n s mem.old tables.old }
{
    run_by(s, mem, tables, n, true)
}
