// What the devices are handed between steps: a tick, a typed character, and that a character sent is read out. Each is
// allowed on a stopped machine too.
ghost use Rattle.std.specs.Prelude.{◌≡◌};
ghost use Rattle.isa.specs.Answers.{tick_call, type_call, read_out_call, answer_numbers, sent_numbers};
ghost use Rattle.isa.specs.Answers.{tick_told, type_told, read_out_told};
ghost use Rattle.operations.specs.Calls.{left_by};

use crate::raise::{left, with_control_words};
use checks::state_answer;
use devices::handed::{read_out as without_character, ticked, typed};
use isa::answer::{Answered, Refusal};
use isa::machine::{Control, State};

// The control words after the clock's pulse.
#[tactic(auto, unfolding(isa::specs::Answers::tick_call))]
fn control_ticked(s: State, mem: &[u16], tables: &[u16]) -> Result<Control, Refusal>
    ensures { left_by s result ≡ tick_call s mem.now tables.now }
{
    state_answer(s, mem, tables)?;
    Ok(ticked(s.control_words()))
}

// The real-time clock's pulse. Refusals 1 and 2.
#[tactic(auto, using(crate::proofs::Laws::tick_told_law))]
pub fn tick(s: State, mem: &[u16], tables: &[u16]) -> Answered<()>
    ensures result_value { result ≡ tick_call s mem.now tables.now }
    ensures answer_value { answer_numbers result.answer ≡ tick_told s mem.now tables.now }
{
    left(s, control_ticked(s, mem, tables))
}

// The control words after the character.
#[tactic(auto, unfolding(isa::specs::Answers::type_call))]
fn control_typed(s: State, character: u8, mem: &[u16], tables: &[u16]) -> Result<Control, Refusal>
    ensures { left_by s result ≡ type_call s character mem.now tables.now }
{
    state_answer(s, mem, tables)?;
    if s.devices.input.unread == 1 {
        return Err(Refusal::Unread);
    }
    Ok(typed(s.control_words(), character as u16))
}

// A character typed at the terminal. Refusals 1, 2 and 11.
#[tactic(auto, using(crate::proofs::Laws::type_told_law))]
pub fn type_character(s: State, character: u8, mem: &[u16], tables: &[u16]) -> Answered<()>
    ensures result_value { result ≡ type_call s character mem.now tables.now }
    ensures answer_value { answer_numbers result.answer ≡ type_told s mem.now tables.now }
{
    left(s, control_typed(s, character, mem, tables))
}

// The character sent last, if it waits.
#[tactic(auto, unfolding(isa::specs::Answers::read_out_call))]
fn character_sent(s: State, mem: &[u16], tables: &[u16]) -> Answered<Option<u16>>
    ensures { result ≡ read_out_call s mem.now tables.now }
{
    match state_answer(s, mem, tables) {
        Ok(()) if s.devices.output.waits == 1 => Answered {
            answer: Ok(Some(s.devices.output.character)),
            state: with_control_words(s, without_character(s.control_words())),
        },
        Ok(()) => Answered {
            answer: Ok(None),
            state: s,
        },
        Err(r) => Answered {
            answer: Err(r),
            state: s,
        },
    }
}

// The character sent last, once. Refusals 1 and 2.
#[tactic(auto, using(crate::proofs::Laws::read_out_told_law))]
pub fn read_out(s: State, mem: &[u16], tables: &[u16]) -> Answered<Option<u16>>
    ensures result_value { result ≡ read_out_call s mem.now tables.now }
    ensures answer_value { sent_numbers result.answer ≡ read_out_told s mem.now tables.now }
{
    character_sent(s, mem, tables)
}
