// One step.
ghost use Rattle.std.specs.Prelude.{◌≡◌};
ghost use Rattle.isa.specs.Answers.{step_call, step_numbers, step_told};
ghost use Rattle.image_load.specs.Loading.{call_of};

use isa::answer::Answered;
use isa::machine::State;

// Refusals 1 and 2.
#[tactic(auto, using(crate::proofs::Laws::step_told_law))]
pub fn step(s: State, mem: &mut [u16], tables: &mut [u16]) -> Answered<u16>
    ensures tables_after { call_of result mem.new tables.new
        ≡ step_call s mem.old tables.old }
    ensures answer_value { step_numbers result.answer ≡ step_told s mem.old tables.old }
{
    let mut regs = s.regs;
    let mut pcrs = s.pcr;
    let r = run::step::step(
        s.level,
        s.control_words(),
        &mut regs,
        &mut pcrs,
        mem,
        tables,
    );
    Answered {
        answer: r.answer,
        state: State::with(r.level, r.control, regs, pcrs),
    }
}
