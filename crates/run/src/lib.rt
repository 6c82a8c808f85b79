// The loop that serves a step, a run through and a run to the first interrupt, over lent registers and PCRs.
#![tactic(auto)]

ghost use Rattle.isa.specs.Machine.{level_count, state_with};
ghost use Rattle.std.specs.Prelude.{◌≡◌, ◌<◌, false};
ghost use Rattle.isa.specs.Run.{run_from};
ghost use Rattle.isa.specs.Step.{step};
ghost use Rattle.run.specs.Runs.{ran_with, turn_with};

use crate::machine::run_in;
use isa::answer::Reason;
use isa::machine::{Control, PageTables, Pcrs, RegisterWords};
use levels::{opened, put_back};

mod machine;
pub mod step;

// What a run leaves beside lent words: the running level and the control words 1 to 9, 26 and 27 with the devices, the
// steps taken, the interrupt that the last of them gave, or 0 (promised of a run of one step), their references, and
// why the run ended.
#[derive(Clone, Copy)]
pub struct RunEnd {
    pub level: u16,
    pub control: Control,
    pub steps: u64,
    pub gave: u16,
    pub references: u64,
    pub reason: Reason,
}

// At most n steps, through or to the first interrupt. A run through of one step is the step.
pub fn run(
    level: u16,
    k: Control,
    regs: &mut RegisterWords,
    pcrs: &mut Pcrs,
    mem: &mut [u16],
    tables: &mut PageTables,
    n: u64,
    first: bool,
) -> RunEnd
    requires level_lt_level_count { level < level_count }
    ensures level_after { result.level < level_count }
    ensures tables_after { ran_with result.references result.reason result.steps
        (state_with result.level result.control regs.new pcrs.new) mem.new tables.new
        ≡ run_from first n 0 (state_with level k regs.old pcrs.old) mem.old
        tables.old }
    ensures one_step { n ≡ 1 → first ≡ false
        → turn_with result.references (state_with result.level result.control regs.new pcrs.new) result.gave
        mem.new tables.new
        ≡ step (state_with level k regs.old pcrs.old) mem.old tables.old }
{
    let c = opened(level, k, regs, pcrs);
    let r = run_in(level, c, regs, pcrs, mem, tables, n, first);
    put_back(r.level, r.core, regs, pcrs);
    RunEnd {
        level: r.level,
        control: r.core.control,
        steps: r.steps,
        gave: r.gave,
        references: r.references,
        reason: r.reason,
    }
}
