// Tests of what callers hand in: the sizes of lent words, and the ranges of a state.
#![tactic(auto)]

ghost use Rattle.std.specs.Prelude.{◌≡◌, ◌&&◌, ◌*◌, ◌<◌, ltb, length};
ghost use Rattle.isa.specs.Machine.{memory_size, sizes_fit, interrupt_bits, pcr_bits, pgs_bits, status_in_range};
ghost use Rattle.isa.specs.Machine.{control_in_range};
ghost use Rattle.isa.specs.Machine.{level_count, all_pcr_bits, flags_fit, in_range, state_with};
ghost use Rattle.checks.specs.Bits.{bits_of};
ghost use Rattle.isa.specs.Devices.{clock_in_range, input_in_range, output_in_range, devices_in_range};
ghost use Rattle.isa.specs.Answers.{state_answer};

use isa::answer::Refusal;
use isa::constant::{
    CHARACTER_RANGE, FILE_SIZE, LARGEST_MEMORY, LENGTH_RANGE, LEVEL_COUNT, LEVELS, PAGE_WORDS,
    STATUS_RANGE, TABLE_WORDS,
};
use isa::device::{Clock, Devices, TerminalInput, TerminalOutput};
use isa::machine::{Control, Pcrs, RegisterWords, State};

// Pages of 1,024 words, at least one, at most 16,777,216 words.
fn memory_size(n: usize) -> bool
    ensures { result ≡ memory_size n }
{
    n % PAGE_WORDS == 0 && PAGE_WORDS <= n && n <= LARGEST_MEMORY
}

// Whether memory and page tables have the sizes of document 01.
#[tactic(auto, unfolding(isa::specs::Machine::sizes_fit))]
pub fn sizes_fit(mem: &[u16], tables: &[u16]) -> bool
    ensures { result ≡ sizes_fit mem.now tables.now }
{
    memory_size(mem.len()) && tables.len() == TABLE_WORDS
}

// Bits 1 to 10.
fn interrupt_bits(w: u16) -> bool
    ensures { result ≡ interrupt_bits w }
{
    w % 2 == 0 && w < 2048
}

// Bits 0-1 and 7-10.
fn pcr_bits(w: u16) -> bool
    ensures { result ≡ pcr_bits w }
{
    w / 4 % 32 == 0 && w < 2048
}

// Bits 15, 14 and 7-0.
fn pgs_bits(w: u16) -> bool
    ensures { result ≡ pgs_bits w }
{
    w / 256 % 64 == 0
}

// The paging status: PGS, and whether it is held, 0 or 1.
fn status_fits(c: Control) -> bool
    ensures { result ≡ status_in_range c }
{
    pgs_bits(c.pgs) && c.held < 2
}

// Three switches, 0 or 1.
fn three_fit(a: u16, b: u16, c: u16) -> bool
    ensures { result ≡ (ltb a 2 && ltb b 2 && ltb c 2) }
{
    a < 2 && b < 2 && c < 2
}

// The words of each device.
fn clock_fits(x: Clock) -> bool
    ensures { result ≡ clock_in_range x }
{
    three_fit(x.enabled, x.ready, x.asks)
}

fn input_fits(x: TerminalInput) -> bool
    ensures { result ≡ input_in_range x }
{
    three_fit(x.enabled, x.unread, x.asks)
        && x.character < CHARACTER_RANGE
        && x.length < LENGTH_RANGE
}

fn output_fits(x: TerminalOutput) -> bool
    ensures { result ≡ output_in_range x }
{
    three_fit(x.enabled, x.waits, x.asks) && x.character < CHARACTER_RANGE
}

fn devices_fit(d: Devices) -> bool
    ensures { result ≡ devices_in_range d }
{
    clock_fits(d.clock) && input_fits(d.input) && output_fits(d.output)
}

// The control words 1 to 9, 26 and 27, and the devices.
fn control_in_range(c: Control) -> bool
    ensures { result ≡ control_in_range c }
{
    three_fit(c.interrupts, c.paging, c.stopped)
        && c.pvl < LEVELS
        && interrupt_bits(c.iid)
        && interrupt_bits(c.iie)
        && status_fits(c)
        && c.extended < 2
        && devices_fit(c.devices)
}

// All bits of sixteen words that stand so far apart, the first of them in front.
#[tactic(auto, unfolding(crate::specs::Bits::bits_of))]
fn bits_of(words: &[u16], apart: usize) -> u16
    requires apart_nonzero { 0 < apart }
    requires words_len { length words.now ≡ level_count * apart }
    ensures { result ≡ bits_of level_count apart words.now }
{
    let mut bits = 0;
    for i in 0..LEVEL_COUNT {
        bits |= words[i * apart];
    }
    bits
}

// Every PCR: a bit that is not used is in one of them if it is among the bits of all.
#[tactic(auto, using(crate::proofs::Laws::all_by_bits))]
fn all_pcr_bits(pcrs: &Pcrs) -> bool
    ensures { result ≡ all_pcr_bits pcrs.now }
{
    pcr_bits(bits_of(pcrs, 1))
}

// Every STS, in the same way.
#[tactic(auto, using(crate::proofs::Laws::flags_by_bits))]
fn flags_fit(regs: &RegisterWords) -> bool
    ensures { result ≡ flags_fit level_count regs.now }
{
    bits_of(regs, FILE_SIZE) < STATUS_RANGE
}

// Whether a state's parts are in the ranges of document 01.
#[tactic(auto, unfolding(isa::specs::Machine::in_range))]
fn parts_in_range(level: u16, k: Control, regs: &RegisterWords, pcrs: &Pcrs) -> bool
    ensures { result ≡ in_range (state_with level k regs.now pcrs.now) }
{
    level < LEVELS && control_in_range(k) && all_pcr_bits(pcrs) && flags_fit(regs)
}

// .. of a state by value.
#[tactic(auto, using(isa::proofs::Packing::parts_state))]
pub fn in_range(s: State) -> bool
    ensures { result ≡ in_range s }
{
    parts_in_range(s.level, s.control_words(), &s.regs, &s.pcr)
}

// Refusal 1, sizes; refusal 2, a state out of range. Of a state's parts.
#[tactic(auto, unfolding(isa::specs::Answers::state_answer))]
pub fn parts_answer(
    level: u16,
    k: Control,
    regs: &RegisterWords,
    pcrs: &Pcrs,
    mem: &[u16],
    tables: &[u16],
) -> Result<(), Refusal>
    ensures { result ≡ state_answer (state_with level k regs.now pcrs.now) mem.now
        tables.now }
{
    if !sizes_fit(mem, tables) {
        return Err(Refusal::Sizes);
    }
    if !parts_in_range(level, k, regs, pcrs) {
        return Err(Refusal::State);
    }
    Ok(())
}

// .. and of a state by value.
pub fn state_answer(s: State, mem: &[u16], tables: &[u16]) -> Result<(), Refusal>
    ensures { result ≡ state_answer s mem.now tables.now }
{
    parts_answer(s.level, s.control_words(), &s.regs, &s.pcr, mem, tables)
}
