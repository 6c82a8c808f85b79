// Answers as numbers, and the rest that they tell.
ghost use Rattle.std.specs.Prelude.{◌≡◌};
ghost use Rattle.isa.specs.Answers.{refusal_number, answer_number, interrupt_given, steps_taken, references_made};
ghost use Rattle.isa.specs.Answers.{reason_number, character_sent_of};

use crate::answer::{Ran, Reason, Refusal};
use crate::constant::CHARACTER_RANGE;

// The number of a refusal in document 01, or 02.
impl From<Refusal> for u16 {
    ghost from_gives = { λ r n. n ≡ refusal_number r };

    fn from(r: Refusal) -> u16 {
        match r {
            Refusal::Sizes => 1,
            Refusal::State => 2,
            Refusal::RaiseLevel => 3,
            Refusal::Contents => 4,
            Refusal::Kind => 5,
            Refusal::Target => 6,
            Refusal::Overlap => 7,
            Refusal::Bodies => 8,
            Refusal::View => 9,
            Refusal::Output => 10,
            Refusal::Unread => 11,
            Refusal::Malformed => 15,
            Refusal::ExponentRange => 16,
            Refusal::Precision => 17,
        }
    }
}

// In the order of a run's tests.
impl From<Reason> for u16 {
    ghost from_gives = { λ w n. n ≡ reason_number w };

    fn from(w: Reason) -> u16 {
        match w {
            Reason::Stopped => 0,
            Reason::Level => 1,
            Reason::Spent => 2,
            Reason::Interrupt => 3,
        }
    }
}

// 0 is not refused.
pub fn answer_number<T: Drop>(a: Result<T, Refusal>) -> u16
    ensures { result ≡ answer_number a }
{
    a.map_or_else(u16::from, |_| 0)
}

// The interrupt that a step gave, 0 if none.
pub fn interrupt_given(a: Result<u16, Refusal>) -> u16
    ensures { result ≡ interrupt_given a }
{
    a.unwrap_or(0)
}

pub fn steps_taken(a: Result<Ran, Refusal>) -> u64
    ensures { result ≡ steps_taken a }
{
    a.map_or(0, |r| r.steps)
}

// The memory references of a run: the sum's low 64 bits.
pub fn references_made(a: Result<Ran, Refusal>) -> u64
    ensures { result ≡ references_made a }
{
    a.map_or(0, |r| r.references)
}

// The character read out, or 256 for none.
pub fn character_sent_of(a: Result<Option<u16>, Refusal>) -> u16
    ensures { result ≡ character_sent_of a }
{
    match a {
        Ok(Some(w)) => w,
        _ => CHARACTER_RANGE,
    }
}
