// `turn` of document 01: from the bytes of an image to the text that is printed.
#![tactic(auto)]

ghost use Rattle.std.specs.Prelude.{◌≡◌};
ghost use Rattle.turn_text.specs.Turn.{end_of, ran_from, cleared_state, image_turned, turned};
ghost use Rattle.turn_text.specs.Turn.{level_register};

use crate::bytes::put_words;
use image_load::bodies::state_in;
use isa::answer::{Reason, Refusal};
use isa::constant::{FILE_SIZE, PAGE_WORDS, STATE_WORDS, TABLE_WORDS};
use isa::machine::{File, Register, State};

mod bytes;
pub mod printing;

// The bytes of the largest image; the memory that it is loaded into; the steps that it is run.
pub const LARGEST_INPUT: usize = 65536;

const MEMORY_WORDS: usize = 16 * PAGE_WORDS;

const MOST_STEPS: u64 = 1000;

// How a run ended: reason and steps, the running level and its registers.
#[derive(Clone, Copy)]
pub struct End {
    pub reason: Reason,
    pub steps: u64,
    pub level: u16,
    pub file: File,
}

// A register of the running level.
fn register(s: State, r: Register) -> u16
    ensures { result ≡ level_register s r }
{
    let i = s.level as usize * FILE_SIZE + r.index();
    s.regs.get(i).copied().unwrap_or(0)
}

#[tactic(auto, unfolding(isa::specs::Machine::file_at))]
fn end_of(w: Reason, k: u64, s: State) -> End
    ensures { result ≡ end_of w k s }
{
    End {
        reason: w,
        steps: k,
        level: s.level,
        file: File {
            sts: register(s, Register::Sts),
            d: register(s, Register::D),
            p: register(s, Register::P),
            b: register(s, Register::B),
            l: register(s, Register::L),
            a: register(s, Register::A),
            t: register(s, Register::T),
            x: register(s, Register::X),
        },
    }
}

// All registers, control words and devices 0.
fn cleared() -> State
    ensures { result ≡ cleared_state }
{
    state_in(&[0; STATE_WORDS])
}

// At most 1,000 steps from a state.
#[tactic(auto, unfolding(crate::specs::Turn::ran_from))]
fn run_state(s: State, mem: &mut [u16], tables: &mut [u16]) -> Result<End, Refusal>
    ensures { result ≡ ran_from s mem.old tables.old }
{
    let ran = operations::runs::through(s, mem, tables, MOST_STEPS);
    match ran.answer {
        Ok(r) => Ok(end_of(r.reason, r.steps, ran.state)),
        Err(refusal) => Err(refusal),
    }
}

// An image loaded and run.
#[tactic(auto, unfolding(crate::specs::Turn::image_turned))]
fn run_image(image: &[u16], mem: &mut [u16], tables: &mut [u16]) -> Result<End, Refusal>
    ensures { result ≡ image_turned image.now mem.old tables.old }
{
    let loaded = operations::load(cleared(), image, mem, tables);
    match loaded.answer {
        Ok(()) => run_state(loaded.state, mem, tables),
        Err(refusal) => Err(refusal),
    }
}

// An image in bytes, loaded into 16 cleared pages and run. More than 65,536 bytes or an odd count is refusal 8 before
// all else.
#[tactic(auto, unfolding(crate::specs::Turn::turned))]
pub fn turn(input: &[u8]) -> Result<End, Refusal>
    ensures { result ≡ turned input.now }
{
    let n = input.len();
    if n > LARGEST_INPUT || n % 2 != 0 {
        return Err(Refusal::Bodies);
    }
    let mut words = [0u16; LARGEST_INPUT / 2];
    let mut mem = [0u16; MEMORY_WORDS];
    let mut tables = [0u16; TABLE_WORDS];
    let count = put_words(input, &mut words);
    run_image(&words[..count], &mut mem, &mut tables)
}
