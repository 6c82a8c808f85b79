// The machine written as an image: contents, then memory, registers, control words, page tables and devices.
#![tactic(auto)]

ghost use Rattle.isa.specs.Machine.{largest_memory, level_count, register_words, control_count, table_words, state_with};
ghost use Rattle.isa.specs.Devices.{device_count, device_words};
ghost use Rattle.std.specs.Prelude.{◌≡◌, ℕ, List, [], ◌++◌, ◌+◌, ◌≤◌, length, drop};
ghost use Rattle.std.proofs.Math.Seq.{paste};
ghost use Rattle.isa.specs.Machine.{scalar_words, added_words, control_words};
ghost use Rattle.isa.specs.Images.{contents_size, contents_words, image_of, image_size};
ghost use Rattle.isa.specs.Answers.{write_answer, written_output};

use checks::state_answer;
use isa::answer::Refusal;
use isa::constant::{
    ADDED_COUNT, BESIDE_MEMORY, CONTENTS_SIZE, CONTROL_COUNT, DEVICE_COUNT, FIRST_ADDED, FIRST_PCR,
    KIND_CONTROL, KIND_DEVICES, KIND_MEMORY, KIND_REGISTERS, KIND_TABLES, LEVEL_COUNT,
    REGISTER_WORDS, TABLE_WORDS, WORD_RANGE, WRITTEN_ENTRIES,
};
use isa::device::{DeviceWords, Devices};
use isa::machine::{Control, State};
use words::copy_words;

// Where the page tables and the devices stand among an image's words beside memory.
const TABLE_PLACE: usize = CONTENTS_SIZE + REGISTER_WORDS + CONTROL_COUNT;

const DEVICE_PLACE: usize = TABLE_PLACE + TABLE_WORDS;

// Numbers of the list of contents as words: its entries, and the lengths of four of them.
const COUNT: u16 = WRITTEN_ENTRIES as u16;

const REGISTERS: u16 = REGISTER_WORDS as u16;

const CONTROLS: u16 = CONTROL_COUNT as u16;

const TABLES: u16 = TABLE_WORDS as u16;

const DEVICES: u16 = DEVICE_COUNT as u16;

// What a word is below, as a size.
const RANGE: usize = WORD_RANGE as usize;

// The contents of an image of n words of memory: five full entries.
fn contents(n: usize) -> [u16; CONTENTS_SIZE]
    requires { n ≤ largest_memory }
    ensures { result ≡ contents_words n }
{
    let high = (n / RANGE) as u16;
    let low = (n % RANGE) as u16;
    [
        COUNT,
        KIND_MEMORY,
        0,
        0,
        high,
        low,
        KIND_REGISTERS,
        0,
        0,
        0,
        REGISTERS,
        KIND_CONTROL,
        0,
        0,
        0,
        CONTROLS,
        KIND_TABLES,
        0,
        0,
        0,
        TABLES,
        KIND_DEVICES,
        0,
        0,
        0,
        DEVICES,
    ]
}

// The control words 0 to 9.
pub type FirstWords = [u16; FIRST_PCR];

pub fn scalars_of(level: u16, k: Control) -> FirstWords
    ensures { result ≡ scalar_words level k }
{
    [
        level,
        k.interrupts,
        k.paging,
        k.stopped,
        k.pid,
        k.pie,
        k.pvl,
        k.iid,
        k.iie,
        k.pgs,
    ]
}

// The control words behind the PCRs.
pub type AddedWords = [u16; ADDED_COUNT];

// No From, here and in scalars_of: Control has more words than these.
pub fn added_of(k: Control) -> AddedWords
    ensures { result ≡ added_words k }
{
    [k.held, k.extended]
}

// Words, to the output from `at` on.
// The whole output and a place, here and below: what is promised of put_control and its like is all of the output.
fn put(out: &mut [u16], at: usize, words: &[u16])
    requires { at + length words.now ≤ length out.old }
    ensures { out.new ≡ paste out.old at words.now (length words.now) }
{
    copy_words(words, &mut out[at..at + words.len()]);
}

// Contents and memory, at the front of the output.
fn put_memory(mem: &[u16], out: &mut [u16])
    requires mem_len_bound { length mem.now ≤ largest_memory }
    requires contents_size_in_bounds { length mem.now + contents_size ≤ length out.old }
    ensures { out.new
        ≡ (contents_words (length mem.now) ++ mem.now)
        ++ drop (length mem.now + contents_size) out.old }
{
    put(out, 0, &contents(mem.len()));
    put(out, CONTENTS_SIZE, mem);
}

// The control words, to the words of the output at `at`.
pub fn put_control(level: u16, k: Control, pcrs: &[u16], out: &mut [u16], at: usize)
    requires pcrs_len { length pcrs.now ≡ level_count }
    requires control_count_in_bounds { at + control_count ≤ length out.old }
    ensures { out.new
        ≡ paste out.old at (control_words (state_with level k [] pcrs.now)) control_count }
{
    put(out, at, &scalars_of(level, k));
    put(out, at + FIRST_PCR, pcrs);
    put(out, at + FIRST_ADDED, &added_of(k));
}

// Registers and control words, to the words of the output at `at`.
pub fn put_state(s: State, out: &mut [u16], at: usize)
    requires { at + (register_words + control_count) ≤ length out.old }
    ensures { out.new
        ≡ paste out.old at (s.regs ++ control_words s) (register_words + control_count) }
{
    put(out, at, &s.regs);
    put_control(s.level, s.control_words(), &s.pcr, out, at + REGISTER_WORDS);
}

// The devices' words, to the words of the output at `at`.
pub fn put_devices(d: Devices, out: &mut [u16], at: usize)
    requires { at + device_count ≤ length out.old }
    ensures { out.new ≡ paste out.old at (device_words d) device_count }
{
    put(out, at, &DeviceWords::from(d));
}

// The image, at the front of the output.
pub fn put_image(s: State, mem: &[u16], tables: &[u16], out: &mut [u16])
    requires mem_len_bound { length mem.now ≤ largest_memory }
    requires tables_len { length tables.now ≡ table_words }
    requires mem_in_bounds { image_size mem.now ≤ length out.old }
    ensures { out.new
        ≡ image_of s mem.now tables.now
        ++ drop (image_size mem.now) out.old }
{
    let n = mem.len();
    put_memory(mem, out);
    put_state(s, out, n + CONTENTS_SIZE);
    put(out, n + TABLE_PLACE, tables);
    put_devices(s.devices, out, n + DEVICE_PLACE);
}

// Refusals 1, 2 and 10, of an output of so many words.
#[tactic(auto, unfolding(isa::specs::Answers::write_answer))]
pub fn write_answer(s: State, mem: &[u16], tables: &[u16], size: usize) -> Result<(), Refusal>
    ensures { (out : List ℕ) → length out ≡ size → result ≡ write_answer s mem.now tables.now out }
{
    state_answer(s, mem, tables)?;
    match size.checked_sub(BESIDE_MEMORY) {
        Some(room) if mem.len() <= room => Ok(()),
        _ => Err(Refusal::Output),
    }
}

// The machine as an image. Refusals 1, 2 and 10, a short output, leave the output; words past the image stay.
#[tactic(auto, using(crate::proofs::Written::write_needs), unfolding(isa::specs::Answers::written_output))]
pub fn write(s: State, mem: &[u16], tables: &[u16], out: &mut [u16]) -> Result<(), Refusal>
    ensures value { result ≡ write_answer s mem.now tables.now out.old }
    ensures out_after { out.new ≡ written_output s mem.now tables.now out.old }
{
    write_answer(s, mem, tables, out.len())?;
    put_image(s, mem, tables, out);
    Ok(())
}
