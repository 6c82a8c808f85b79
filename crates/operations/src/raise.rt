// A device's interrupt.
ghost use Rattle.std.specs.Prelude.{◌≡◌};
ghost use Rattle.isa.specs.Machine.{with_control_words};
ghost use Rattle.isa.specs.Answers.{raise_call, answer_numbers, raise_told};
ghost use Rattle.operations.specs.Calls.{left_by};

use checks::state_answer;
use devices::handed::{device_level, raised};
use isa::answer::{Answered, Refusal};
use isa::machine::{Control, State};

// The state with other control words and devices.
pub(crate) fn with_control_words(s: State, k: Control) -> State
    ensures { result ≡ with_control_words s k }
{
    State::with(s.level, k, s.regs, s.pcr)
}

// The state with the control words that were made, or as it came beside the refusal.
pub(crate) fn left(s: State, made: Result<Control, Refusal>) -> Answered<()>
    ensures { result ≡ left_by s made }
{
    match made {
        Ok(k) => Answered {
            answer: Ok(()),
            state: with_control_words(s, k),
        },
        Err(r) => Answered {
            answer: Err(r),
            state: s,
        },
    }
}

// The control words with the level's PID bit set.
#[tactic(auto, unfolding(isa::specs::Answers::raise_call))]
fn control_raised(s: State, level: u16, mem: &[u16], tables: &[u16]) -> Result<Control, Refusal>
    ensures { left_by s result ≡ raise_call s level mem.now tables.now }
{
    state_answer(s, mem, tables)?;
    if !device_level(level) {
        return Err(Refusal::RaiseLevel);
    }
    Ok(raised(s.control_words(), level))
}

// The level's PID bit is set. Refusals 1, 2 and 3.
#[tactic(auto, using(crate::proofs::Laws::raise_told_law))]
pub fn raise(s: State, level: u16, mem: &[u16], tables: &[u16]) -> Answered<()>
    ensures result_value { result ≡ raise_call s level mem.now tables.now }
    ensures answer_value { answer_numbers result.answer ≡ raise_told s level mem.now tables.now }
{
    left(s, control_raised(s, level, mem, tables))
}
