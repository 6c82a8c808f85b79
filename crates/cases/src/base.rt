// The machine that every case starts from, before its changes.
ghost use Rattle.std.specs.Prelude.{◌<◌};

use isa::constant::{FILE_SIZE, FIRST_DEVICE, PAGE_WORDS, REGISTER_WORDS, STATE_WORDS};
use std::array;

// The two machines that cases start from: in 19-bit mode, or in extended mode.
#[derive(Clone, Copy, PartialEq, Eq)]
pub(crate) enum PagingMode {
    NineteenBit,
    Extended,
}

// The extended flag among a state's words: the last control word.
const EXTENDED: usize = FIRST_DEVICE - 1;

// A word that tells its index.
fn pattern(i: usize) -> u16 {
    (i % 1048576 * 40503 % 65521) as u16
}

// Registers at 8 * level + number, then the control words.
fn state_word(mode: PagingMode, i: usize) -> u16 {
    match i {
        0..REGISTER_WORDS if i % FILE_SIZE == 0 => (i * 3 % 256 / 2 * 2) as u16,
        0..REGISTER_WORDS => pattern(i + 7),
        128 => 3,
        129 => 1,
        130 => 1,
        131 => 0,
        132 => 8,
        133 => 65535,
        134 => 5,
        135 => 0,
        136 => 2046,
        137 => 0,
        EXTENDED => u16::from(mode == PagingMode::Extended),
        154..=167 => 0,
        _ => pcr(i),
    }
}

// PCRs: ring 2, the normal table and the alternate one go with the level.
fn pcr(i: usize) -> u16 {
    ((i % 4 + 2) % 4 * 512 + (i % 4 + 3) % 4 * 128 + 2) as u16
}

// Registers and control words.
pub(crate) fn state_words(mode: PagingMode) -> [u16; STATE_WORDS] {
    array::from_fn(|i| state_word(mode, i))
}

// Every access permitted to ring 2; pages of memory in another order in each table.
fn short_entry(i: usize, pages: usize) -> u16
    requires { 0 < pages }
{
    (58368 + (i % 64 + i / 64 % 4) % pages % 512) as u16
}

// The same entries in extended mode, of two words each.
fn long_entry(i: usize, pages: usize) -> u16
    requires { 0 < pages }
{
    let slot = i / 2;
    if i % 2 == 0 {
        58368
    } else {
        ((slot % 64 + slot / 64 % 4) % pages % 16384) as u16
    }
}

// A word of the page tables beside so many words of memory; 0 where memory has no page.
fn table_word(mode: PagingMode, memory_words: usize, i: usize) -> u16 {
    let pages = memory_words / PAGE_WORDS;
    match mode {
        _ if pages == 0 => 0,
        PagingMode::NineteenBit => short_entry(i, pages),
        PagingMode::Extended => long_entry(i, pages),
    }
}

// The pattern's words: the base machine's memory.
pub(crate) fn fill_pattern(words: &mut [u16]) {
    for (i, word) in words.iter_mut().enumerate() {
        *word = pattern(i);
    }
}

// The words of page tables, beside so many words of memory.
pub(crate) fn fill_tables(mode: PagingMode, memory_words: usize, words: &mut [u16]) {
    for (i, word) in words.iter_mut().enumerate() {
        *word = table_word(mode, memory_words, i);
    }
}
