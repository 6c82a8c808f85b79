// The operations for a host in C or Rust: numbers, lent words and records alone, nothing required of the caller. Each
// function answers 0, the number of a refusal in document 01 or 02, or 255 for a call that is no operation; only 0
// changes lent words. include/nd110.h declares them.
#![tactic(auto)]

ghost use Rattle.std.specs.Prelude.{◌≡◌, true, false, cond, ℕ, List, ◌∷◌, [], ◌++◌, eqb, length, take};
ghost use Rattle.nd110.specs.Calls.{left_of, step_end, host_step, run_end, host_run, reason_given, ran_values};
ghost use Rattle.nd110.specs.Calls.{answer_end, host_raise, host_load, host_write, host_written, known_target};
ghost use Rattle.nd110.specs.Calls.{host_tick, host_type, read_out_end, host_read_out, host_input_run};
ghost use Rattle.nd110.specs.Calls.{target_named, host_view_answer, host_view, host_viewed};
ghost use Rattle.nd110.specs.Calls.{lent_left, lent_step_end, lent_raise_end, output_left, host_to_long, host_to_short};
ghost use Rattle.isa.specs.Machine.{level_count, register_words, state_words, state_ordered};
ghost use Rattle.isa.specs.Answers.{answer_number, interrupt_given, step_call, raise_call, read_out_call, run_call};
ghost use Rattle.run.specs.Runs.{step_called};
ghost use Rattle.image_load.specs.Loading.{call_of};

use floating::form::{Long, Short};
use floating::{long_to_short, short_to_long};
use image_load::bodies::{control_of, pcrs_of, state_in};
use image_write::{put_control, put_devices};
use isa::answer::{Answered, Ran, Refusal, Target};
use isa::constant::{FIRST_DEVICE, KIND_MEMORY, KIND_TABLES, REGISTER_WORDS, STATE_WORDS};
use isa::machine::State;
use isa::number::{answer_number, character_sent_of, references_made, steps_taken};
use lent::{raise_lent, step_lent};
use operations::device::{read_out, tick, type_character};
use operations::input::{InputRunResult, run_with_input};
use operations::raise::raise;
use operations::runs::run_by;
use run::step::{StepEnd, step};
use words::copy_words;

// The number of a call that is no operation.
const BAD_CALL: u16 = 255;

// A state, to the lent words: 128 registers, 28 control words and 12 devices' words, each in image order.
fn put_state(s: State, words: &mut [u16])
    requires { length words.old ≡ state_words }
    ensures { words.new ≡ state_ordered s }
{
    image_write::put_state(s, words, 0);
    put_devices(s.devices, words, FIRST_DEVICE);
}

// A step's number; its interrupt's to `interrupt`, unless it was refused.
fn tell_interrupt(a: Result<u16, Refusal>, interrupt: &mut u16) -> u16
    ensures value { result ≡ answer_number a }
    ensures interrupt_after { interrupt.new ≡ cond (eqb (answer_number a) 0) (interrupt_given a) interrupt.old }
{
    if let Ok(n) = a {
        *interrupt = n;
    }
    answer_number(a)
}

// What a step of the lent words left beside their registers, to those words.
// By the number that C gets, as the definitions decide it; so in tell, tell_answer, tell_character and tell_input.
#[tactic(auto, unfolding(crate::specs::Calls::call_end))]
fn tell_step(r: StepEnd, pcrs: &[u16], state: &mut [u16], interrupt: &mut u16) -> u16
    requires pcrs_len { length pcrs.now ≡ level_count }
    requires state_len { length state.old ≡ state_words }
    ensures { (m t : List ℕ)
        → left_of result state.new m t (interrupt.new ∷ [])
        ≡ step_end state.old (interrupt.old ∷ [])
        (step_called r (take register_words state.old) pcrs.now m t) }
{
    let n = tell_interrupt(r.answer, interrupt);
    if n != 0 {
        return n;
    }
    put_control(r.level, r.control, pcrs, state, REGISTER_WORDS);
    put_devices(r.control.devices, state, FIRST_DEVICE);
    0
}

// One step, on the lent words themselves. `interrupt` gets the interrupt's number, 0 if none.
#[tactic(auto, unfolding(crate::specs::Calls::called))]
#[unsafe(no_mangle)]
pub extern "C" fn nd110_step(
    state: &mut [u16],
    mem: &mut [u16],
    tables: &mut [u16],
    interrupt: &mut u16,
) -> u16
    ensures { left_of result state.new mem.new tables.new (interrupt.new ∷ [])
        ≡ host_step state.old mem.old tables.old (interrupt.old ∷ []) }
{
    if state.len() != STATE_WORDS {
        return BAD_CALL;
    }
    let level = state[REGISTER_WORDS];
    let k = control_of(&state[REGISTER_WORDS..FIRST_DEVICE], &state[FIRST_DEVICE..]);
    let mut pcrs = pcrs_of(&state[REGISTER_WORDS..FIRST_DEVICE]);
    let Some(regs) = state.first_chunk_mut() else {
        return BAD_CALL;
    };
    let r = step(level, k, regs, &mut pcrs, mem, tables);
    tell_step(r, &pcrs, state, interrupt)
}

// One step of a lent record.
#[unsafe(no_mangle)]
pub extern "C" fn nd110_step_lent(
    m: &mut State,
    mem: &mut [u16],
    tables: &mut [u16],
    interrupt: &mut u16,
) -> u16
    ensures { lent_left result m.new mem.new tables.new (interrupt.new ∷ [])
        ≡ lent_step_end interrupt.old
        (step_call m.old mem.old tables.old) }
{
    tell_interrupt(step_lent(m, mem, tables), interrupt)
}

// A run's reason, 0 for one that was refused.
fn reason_given(a: Result<Ran, Refusal>) -> u16
    ensures { result ≡ reason_given a }
{
    a.map_or(0, |r| r.reason.into())
}

// What a run answered, to the lent words.
#[tactic(auto, unfolding(crate::specs::Calls::call_end))]
fn tell(
    r: Answered<Ran>,
    state: &mut [u16],
    steps: &mut u64,
    reason: &mut u16,
    references: &mut u64,
) -> u16
    requires { length state.old ≡ state_words }
    ensures { (m t : List ℕ)
        → left_of result state.new m t (steps.new ∷ reason.new ∷ references.new ∷ [])
        ≡ run_end state.old (steps.old ∷ reason.old ∷ references.old ∷ [])
        (call_of r m t) }
{
    let a = r.answer;
    let n = answer_number(a);
    if n != 0 {
        return n;
    }
    put_state(r.state, state);
    *steps = steps_taken(a);
    *reason = reason_given(a);
    *references = references_made(a);
    0
}

// Either run of the words' state.
#[tactic(auto, unfolding(crate::specs::Calls::called))]
fn run_words(
    state: &mut [u16],
    mem: &mut [u16],
    tables: &mut [u16],
    n: u64,
    first: bool,
    steps: &mut u64,
    reason: &mut u16,
    references: &mut u64,
) -> u16
    ensures { left_of result state.new mem.new tables.new
        (steps.new ∷ reason.new ∷ references.new ∷ [])
        ≡ host_run first n state.old mem.old tables.old
        (steps.old ∷ reason.old ∷ references.old ∷ []) }
{
    if state.len() != STATE_WORDS {
        return BAD_CALL;
    }
    let r = run_by(state_in(state), mem, tables, n, first);
    tell(r, state, steps, reason, references)
}

// C calls the two runs by name; each is `run_words`.
// At most n steps, interrupts and changes of level included. `steps` gets the steps taken, `reason` the reason's
// number, `references` the memory references made.
#[unsafe(no_mangle)]
pub extern "C" fn nd110_run(
    state: &mut [u16],
    mem: &mut [u16],
    tables: &mut [u16],
    n: u64,
    steps: &mut u64,
    reason: &mut u16,
    references: &mut u64,
) -> u16
    ensures { left_of result state.new mem.new tables.new
        (steps.new ∷ reason.new ∷ references.new ∷ [])
        ≡ host_run false n state.old mem.old tables.old
        (steps.old ∷ reason.old ∷ references.old ∷ []) }
{
    run_words(state, mem, tables, n, false, steps, reason, references)
}

// At most n steps, up to the first that gives an interrupt, or before a change of level.
#[unsafe(no_mangle)]
pub extern "C" fn nd110_run_to_interrupt(
    state: &mut [u16],
    mem: &mut [u16],
    tables: &mut [u16],
    n: u64,
    steps: &mut u64,
    reason: &mut u16,
    references: &mut u64,
) -> u16
    ensures { left_of result state.new mem.new tables.new
        (steps.new ∷ reason.new ∷ references.new ∷ [])
        ≡ host_run true n state.old mem.old tables.old
        (steps.old ∷ reason.old ∷ references.old ∷ []) }
{
    run_words(state, mem, tables, n, true, steps, reason, references)
}

// What an operation answered that tells no more, and the state that it left, to the lent words.
#[tactic(auto, unfolding(crate::specs::Calls::call_end))]
fn tell_answer(a: Result<(), Refusal>, after: State, state: &mut [u16]) -> u16
    requires { length state.old ≡ state_words }
    ensures { (m t : List ℕ)
        → left_of result state.new m t [] ≡ answer_end state.old a after m t }
{
    let n = answer_number(a);
    if n != 0 {
        return n;
    }
    put_state(after, state);
    0
}

// A device's interrupt.
#[tactic(auto, unfolding(crate::specs::Calls::called))]
#[unsafe(no_mangle)]
pub extern "C" fn nd110_raise(state: &mut [u16], level: u16, mem: &[u16], tables: &[u16]) -> u16
    ensures { left_of result state.new mem.now tables.now []
        ≡ host_raise level state.old mem.now tables.now }
{
    if state.len() != STATE_WORDS {
        return BAD_CALL;
    }
    let r = raise(state_in(state), level, mem, tables);
    tell_answer(r.answer, r.state, state)
}

// A device's interrupt to a lent record.
#[unsafe(no_mangle)]
pub extern "C" fn nd110_raise_lent(m: &mut State, level: u16, mem: &[u16], tables: &[u16]) -> u16
    ensures { lent_left result m.new mem.now tables.now []
        ≡ lent_raise_end mem.now tables.now
        (raise_call m.old level mem.now tables.now) }
{
    answer_number(raise_lent(m, level, mem, tables))
}

// The real-time clock's pulse.
#[tactic(auto, unfolding(crate::specs::Calls::called))]
#[unsafe(no_mangle)]
pub extern "C" fn nd110_tick(state: &mut [u16], mem: &[u16], tables: &[u16]) -> u16
    ensures { left_of result state.new mem.now tables.now []
        ≡ host_tick state.old mem.now tables.now }
{
    if state.len() != STATE_WORDS {
        return BAD_CALL;
    }
    let r = tick(state_in(state), mem, tables);
    tell_answer(r.answer, r.state, state)
}

// A character typed at the terminal.
#[tactic(auto, unfolding(crate::specs::Calls::called))]
#[unsafe(no_mangle)]
pub extern "C" fn nd110_type(state: &mut [u16], character: u8, mem: &[u16], tables: &[u16]) -> u16
    ensures { left_of result state.new mem.now tables.now []
        ≡ host_type character state.old mem.now tables.now }
{
    if state.len() != STATE_WORDS {
        return BAD_CALL;
    }
    let r = type_character(state_in(state), character, mem, tables);
    tell_answer(r.answer, r.state, state)
}

// What a read out answered, and the state that it left, to the lent words.
#[tactic(auto, unfolding(crate::specs::Calls::call_end))]
fn tell_character(r: Answered<Option<u16>>, state: &mut [u16], character: &mut u16) -> u16
    requires { length state.old ≡ state_words }
    ensures { (m t : List ℕ)
        → left_of result state.new m t (character.new ∷ [])
        ≡ read_out_end state.old (character.old ∷ []) m t r }
{
    let a = r.answer;
    let n = answer_number(a);
    if n != 0 {
        return n;
    }
    put_state(r.state, state);
    *character = character_sent_of(a);
    0
}

// The character sent last, once: `character` gets it, or 256 for none.
#[tactic(auto, unfolding(crate::specs::Calls::called))]
#[unsafe(no_mangle)]
pub extern "C" fn nd110_read_out(
    state: &mut [u16],
    mem: &[u16],
    tables: &[u16],
    character: &mut u16,
) -> u16
    ensures { left_of result state.new mem.now tables.now (character.new ∷ [])
        ≡ host_read_out state.old mem.now tables.now (character.old ∷ []) }
{
    if state.len() != STATE_WORDS {
        return BAD_CALL;
    }
    tell_character(read_out(state_in(state), mem, tables), state, character)
}

// What a run with device input answered, to the lent words.
fn tell_input(
    r: InputRunResult,
    state: &mut [u16],
    handed: &mut u64,
    steps: &mut u64,
    reason: &mut u16,
    references: &mut u64,
) -> u16
    requires { length state.old ≡ state_words }
    ensures value { result ≡ answer_number r.answer }
    ensures state_after { state.new ≡ cond (eqb result 0) (state_ordered r.state) state.old }
    ensures references_after { (handed.new ∷ steps.new ∷ reason.new ∷ references.new ∷ [])
        ≡ cond (eqb result 0) (r.handed ∷ ran_values r.answer)
        (handed.old ∷ steps.old ∷ reason.old ∷ references.old ∷ []) }
{
    let a = r.answer;
    let n = answer_number(a);
    if n != 0 {
        return n;
    }
    put_state(r.state, state);
    *handed = r.handed as u64;
    *steps = steps_taken(a);
    *reason = reason_given(a);
    *references = references_made(a);
    0
}

// At most n steps, up to the first that gives an interrupt, or before a change of level, with device input: the input
// what[i] after at[i] steps, and to told[i] what it was told; the three lists have one length. `handed` gets how many
// were handed in, `steps` the steps taken, `reason` the reason's number, `references` the memory references made.
#[tactic(auto, unfolding(crate::specs::Calls::called))]
#[unsafe(no_mangle)]
pub extern "C" fn nd110_run_with_input(
    state: &mut [u16],
    mem: &mut [u16],
    tables: &mut [u16],
    n: u64,
    at: &[u64],
    what: &[u16],
    told: &mut [u16],
    handed: &mut u64,
    steps: &mut u64,
    reason: &mut u16,
    references: &mut u64,
) -> u16
    ensures { left_of result state.new mem.new tables.new
        (told.new
        ++ (handed.new ∷ steps.new ∷ reason.new ∷ references.new ∷ []))
        ≡ host_input_run n at.now what.now told.old state.old
        mem.old tables.old
        (handed.old ∷ steps.old ∷ reason.old ∷ references.old ∷ []) }
{
    if state.len() != STATE_WORDS {
        return BAD_CALL;
    }
    if at.len() != what.len() {
        return BAD_CALL;
    }
    if told.len() != what.len() {
        return BAD_CALL;
    }
    let r = run_with_input(state_in(state), mem, tables, n, at, what, told);
    tell_input(r, state, handed, steps, reason, references)
}

// The machine of an image.
#[tactic(auto, unfolding(crate::specs::Calls::called))]
#[unsafe(no_mangle)]
pub extern "C" fn nd110_load(
    state: &mut [u16],
    image: &[u16],
    mem: &mut [u16],
    tables: &mut [u16],
) -> u16
    ensures { left_of result state.new mem.new tables.new []
        ≡ host_load image.now state.old mem.old tables.old }
{
    if state.len() != STATE_WORDS {
        return BAD_CALL;
    }
    let r = operations::load(state_in(state), image, mem, tables);
    tell_answer(r.answer, r.state, state)
}

// The machine as an image; words of the output past it stay.
#[tactic(auto, unfolding(crate::specs::Calls::host_write, crate::specs::Calls::host_written))]
#[unsafe(no_mangle)]
pub extern "C" fn nd110_write(state: &[u16], mem: &[u16], tables: &[u16], out: &mut [u16]) -> u16
    ensures value { result ≡ host_write state.now mem.now tables.now out.old }
    ensures out_after { out.new
        ≡ host_written state.now mem.now tables.now out.old }
{
    if state.len() != STATE_WORDS {
        return BAD_CALL;
    }
    answer_number(operations::write(state_in(state), mem, tables, out))
}

// The kinds of image entries that can be viewed: 1 memory, 4 page tables.
// Numbers, since C hands them in.
fn known_target(kind: u16) -> bool
    ensures { result ≡ known_target kind }
{
    kind == KIND_MEMORY || kind == KIND_TABLES
}

#[tactic(auto, unfolding(crate::specs::Calls::target_named))]
fn target_named(kind: u16) -> Target
    ensures { result ≡ target_named kind }
{
    if kind == KIND_MEMORY {
        Target::Memory
    } else {
        Target::Tables
    }
}

// The call beside view, which tells its number.
#[tactic(auto, unfolding(crate::specs::Calls::host_view_answer))]
#[unsafe(no_mangle)]
pub extern "C" fn nd110_view_answer(
    kind: u16,
    start: usize,
    len: usize,
    mem: &[u16],
    tables: &[u16],
) -> u16
    ensures { result ≡ host_view_answer kind start len mem.now tables.now }
{
    if known_target(kind) {
        return answer_number(operations::view_answer(target_named(kind), start, len, mem, tables));
    }
    BAD_CALL
}

// A part of memory or page tables, to the front of the output; words of the output past it stay.
#[tactic(auto, using(crate::proofs::Laws::put_front, crate::proofs::Laws::viewed_most), unfolding(crate::specs::Calls::host_view, crate::specs::Calls::host_viewed))]
#[unsafe(no_mangle)]
pub extern "C" fn nd110_view<'a>(
    kind: u16,
    start: usize,
    len: usize,
    mem: &'a [u16],
    tables: &'a [u16],
    out: &mut [u16],
) -> u16
    ensures value { result ≡ host_view kind start len mem.now tables.now
        (length out.old) }
    ensures out_after { out.new
        ≡ host_viewed kind start len mem.now tables.now out.old }
{
    if out.len() < len {
        return BAD_CALL;
    }
    let n = nd110_view_answer(kind, start, len, mem, tables);
    if known_target(kind) {
        let part = operations::view(target_named(kind), start, len, mem, tables);
        copy_words(part, &mut out[..part.len()]);
    }
    n
}

// The words of the floating forms.
const SHORT_WORDS: usize = 2;

const LONG_WORDS: usize = 3;

// A floating number of 32 bits, words A and D, to the output as one of 48, words T, A and D.
#[tactic(auto, using(crate::proofs::Conversions::long_put, crate::proofs::Conversions::long_refused), unfolding(crate::specs::Calls::host_to_long))]
#[unsafe(no_mangle)]
pub extern "C" fn nd110_short_to_long(a: u16, d: u16, out: &mut [u16]) -> u16
    ensures { output_left result out.new ≡ host_to_long a d out.old }
{
    if out.len() != LONG_WORDS {
        return BAD_CALL;
    }
    match short_to_long(Short { a: a, d: d }) {
        Ok(l) => {
            out[0] = l.t;
            out[1] = l.a;
            out[2] = l.d;
            0
        }
        Err(x) => x.into(),
    }
}

// A floating number of 48 bits, words T, A and D, to the output as one of 32, words A and D.
#[tactic(auto, using(crate::proofs::Conversions::short_put, crate::proofs::Conversions::short_refused), unfolding(crate::specs::Calls::host_to_short))]
#[unsafe(no_mangle)]
pub extern "C" fn nd110_long_to_short(t: u16, a: u16, d: u16, out: &mut [u16]) -> u16
    ensures { output_left result out.new ≡ host_to_short t a d out.old }
{
    if out.len() != SHORT_WORDS {
        return BAD_CALL;
    }
    match long_to_short(Long { t: t, a: a, d: d }) {
        Ok(s) => {
            out[0] = s.a;
            out[1] = s.d;
            0
        }
        Err(x) => x.into(),
    }
}
