// Run to the first interrupt with device input, over lent registers and PCRs.
#![tactic(auto)]

ghost use Rattle.isa.specs.Machine.{level_count, state_with};
ghost use Rattle.std.specs.Prelude.{◌≡◌, ◌-◌, ◌<◌, ◌≤◌, true, length, take};
ghost use Rattle.isa.specs.Run.{counted_run, run_from};
ghost use Rattle.run.specs.Runs.{ran_with};
ghost use Rattle.isa.specs.DeviceInput.{is_spent, given_of, input_run_from};
ghost use Rattle.run_input.specs.Inputs.{end_run, onto};

use devices::handed::hand_in;
use isa::answer::Reason;
use isa::device::DeviceInput;
use isa::machine::{Control, PageTables, Pcrs, RegisterWords};
use run::{RunEnd, run};

// What a run leaves beside lent words: the running level, the control words 1 to 9, 26 and 27 with the devices, the
// steps taken and their references, the inputs handed in, and why the run ended.
#[derive(Clone, Copy)]
pub struct InputEnd {
    pub level: u16,
    pub control: Control,
    pub steps: u64,
    pub references: u64,
    pub handed: usize,
    pub reason: Reason,
}

// A run that has taken `from` steps, with so many references, goes on to its step `to`.
fn run_on(
    level: u16,
    k: Control,
    regs: &mut RegisterWords,
    pcrs: &mut Pcrs,
    mem: &mut [u16],
    tables: &mut PageTables,
    from: u64,
    to: u64,
    references: u64,
) -> RunEnd
    requires level_lt_level_count { level < level_count }
    ensures level_after { result.level < level_count }
    ensures tables_after { ran_with result.references result.reason result.steps
        (state_with result.level result.control regs.new pcrs.new) mem.new tables.new
        ≡ counted_run references (run_from true (to - from) from
        (state_with level k regs.old pcrs.old) mem.old tables.old) }
{
    let r = run(
        level,
        k,
        regs,
        pcrs,
        mem,
        tables,
        to.saturating_sub(from),
        true,
    );
    RunEnd {
        steps: from + r.steps,
        references: references.wrapping_add(r.references),
        ..r
    }
}

// Whether a run took the steps that it was to.
fn is_spent(w: Reason) -> bool
    ensures { result ≡ is_spent w }
{
    w == Reason::Spent
}

fn end_of(r: RunEnd, handed: usize) -> InputEnd
    ensures { result ≡ record {
      level = r.level;
      control = r.control;
      steps = r.steps;
      references = r.references;
      handed = handed;
      reason = r.reason;
    } }
{
    InputEnd {
        level: r.level,
        control: r.control,
        steps: r.steps,
        references: r.references,
        handed,
        reason: r.reason,
    }
}

// At most n steps. The input what[i] is handed in after at[i] steps, and what it was told is put to told[i]; the
// shortest of the three lists counts.
// Three lists side by side, as hosts in C lend them.
pub fn run_with_input(
    start: u16,
    k: Control,
    regs: &mut RegisterWords,
    pcrs: &mut Pcrs,
    mem: &mut [u16],
    tables: &mut PageTables,
    n: u64,
    at: &[u64],
    what: &[u16],
    told: &mut [u16],
) -> InputEnd
    requires start_lt_level_count { start < level_count }
    ensures tables_after { end_run result (take result.handed told.new) regs.new pcrs.new
        mem.new tables.new
        ≡ input_run_from n (given_of (take (length told.old) at.now) what.now) 0
        (state_with start k regs.old pcrs.old) mem.old tables.old }
    ensures told_after { told.new ≡ onto (take result.handed told.new) told.old }
    ensures handed_in_bounds { result.handed ≤ length told.old }
{
    let count = at.len().min(told.len()).min(what.len());
    let mut level = start;
    let mut control = k;
    let mut steps: u64 = 0;
    let mut references: u64 = 0;
    // By index: three lists, one of them written, and how many inputs were handed in is told.
    for i in 0..count {
        let due = at[i];
        if n < due {
            let last = run_on(
                level, control, regs, pcrs, mem, tables, steps, n, references,
            );
            return end_of(last, i);
        }
        let r = run_on(
            level, control, regs, pcrs, mem, tables, steps, due, references,
        );
        if !is_spent(r.reason) {
            return end_of(r, i);
        }
        let h = hand_in(DeviceInput::from(what[i]), r.control);
        told[i] = h.told;
        control = h.control;
        level = r.level;
        steps = r.steps;
        references = r.references;
    }
    let last = run_on(
        level, control, regs, pcrs, mem, tables, steps, n, references,
    );
    end_of(last, count)
}
