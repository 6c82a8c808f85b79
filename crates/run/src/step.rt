// One step over lent registers and PCRs, refusals included.
ghost use Rattle.isa.specs.Machine.{state_with};
ghost use Rattle.std.specs.Prelude.{◌≡◌};
ghost use Rattle.isa.specs.Answers.{step_call};
ghost use Rattle.run.specs.Runs.{step_called};

use crate::run;
use checks::parts_answer;
use isa::answer::Refusal;
use isa::machine::{Control, Pcrs, RegisterWords};

// What a step answers, and the level and the control words 1 to 9, 26 and 27 with the devices that it leaves.
#[derive(Clone, Copy)]
pub struct StepEnd {
    pub answer: Result<u16, Refusal>,
    pub level: u16,
    pub control: Control,
}

// A refused step leaves the level and the control words as they came.
fn refused(x: Refusal, level: u16, control: Control) -> StepEnd
    ensures { result ≡ record {
      answer = Err x;
      level = level;
      control = control;
    } }
{
    StepEnd {
        answer: Err(x),
        level,
        control,
    }
}

// Refusals 1 and 2. Words that pass the first have page tables of 512.
#[tactic(auto, using(checks::proofs::Passed::run_needs), unfolding(isa::specs::Answers::step_call))]
pub fn step(
    level: u16,
    k: Control,
    regs: &mut RegisterWords,
    pcrs: &mut Pcrs,
    mem: &mut [u16],
    tables: &mut [u16],
) -> StepEnd
    ensures { step_called result regs.new pcrs.new mem.new tables.new
        ≡ step_call (state_with level k regs.old pcrs.old) mem.old
        tables.old }
{
    match parts_answer(level, k, regs, pcrs, mem, tables) {
        Ok(()) => match tables.as_mut_array() {
            Some(tables) => {
                let r = run(level, k, regs, pcrs, mem, tables, 1, false);
                StepEnd {
                    answer: Ok(r.gave),
                    level: r.level,
                    control: r.control,
                }
            }
            None => refused(Refusal::Sizes, level, k),
        },
        Err(x) => refused(x, level, k),
    }
}
