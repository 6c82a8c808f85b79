// The loop, over the running level's words and those of all levels.
ghost use Rattle.isa.specs.Machine.{level_count};
ghost use Rattle.std.specs.Prelude.{◌≡◌, ◌<◌, false, not, ◌&&◌, ◌==◌};
ghost use Rattle.isa.specs.Machine.{pack};
ghost use Rattle.isa.specs.Run.{run_from};
ghost use Rattle.isa.specs.Step.{step};
ghost use Rattle.levels.specs.Changes.{due_at};
ghost use Rattle.run.specs.Runs.{loop_run, turn_with, reason_at_rest};

use isa::answer::Reason;
use isa::machine::{Control, Core, PageTables, Pcrs, RegisterWords};
use levels::change::change_due;
use run_slice::advance;

// The running level, its words, the steps taken, the interrupt that the last of them gave, or 0, their references, and
// why the run ended.
#[derive(Clone, Copy)]
pub struct LoopEnd {
    pub level: u16,
    pub core: Core,
    pub steps: u64,
    pub gave: u16,
    pub references: u64,
    pub reason: Reason,
}

fn ended(level: u16, core: Core, steps: u64, gave: u16, references: u64, reason: Reason) -> LoopEnd
    ensures { result ≡ record {
      level = level;
      core = core;
      steps = steps;
      gave = gave;
      references = references;
      reason = reason;
    } }
{
    LoopEnd {
        level,
        core,
        steps,
        gave,
        references,
        reason,
    }
}

// To the first interrupt: a change of level that is due ends the run before a step, an interrupt after it.
fn level_ends(first: bool, level: u16, k: Control) -> bool
    ensures { result ≡ (first && due_at level k) }
{
    first && change_due(level, k)
}

fn interrupt_ends(first: bool, gave: u16) -> bool
    ensures { result ≡ (first && not (gave == 0)) }
{
    first && gave != 0
}

// Why a run of no more steps ends.
fn at_rest(first: bool, level: u16, c: Core) -> Reason
    ensures { result ≡ reason_at_rest first level c.control }
{
    if c.control.stopped == 1 {
        Reason::Stopped
    } else if level_ends(first, level, c.control) {
        Reason::Level
    } else {
        Reason::Spent
    }
}

// Before each step: stopped, then (to the first interrupt only) a level due, then spent; after it an interrupt. A run
// of one step serves the step, too.
pub fn run_in(
    start: u16,
    c: Core,
    regs: &mut RegisterWords,
    pcrs: &mut Pcrs,
    mem: &mut [u16],
    tables: &mut PageTables,
    n: u64,
    first: bool,
) -> LoopEnd
    requires start_lt_level_count { start < level_count }
    ensures level_lt_level_count { result.level < level_count }
    ensures tables_after { loop_run result regs.new pcrs.new mem.new tables.new
        ≡ run_from first n 0 (pack start c regs.old pcrs.old) mem.old
        tables.old }
    ensures one_step { n ≡ 1 → first ≡ false
        → turn_with result.references (pack result.level result.core regs.new pcrs.new) result.gave
        mem.new tables.new
        ≡ step (pack start c regs.old pcrs.old) mem.old tables.old }
{
    let mut level = start;
    let mut core = c;
    let mut steps: u64 = 0;
    let mut gave: u16 = 0;
    let mut references: u64 = 0;
    // No index: a turn takes as many steps as its burst has.
    while steps < n {
        if core.control.stopped == 1 {
            return ended(level, core, steps, gave, references, Reason::Stopped);
        }
        if level_ends(first, level, core.control) {
            return ended(level, core, steps, gave, references, Reason::Level);
        }
        let out = advance(level, core, regs, pcrs, mem, tables, n - steps);
        level = out.level;
        core = out.core;
        gave = out.gave;
        references = references.wrapping_add(out.references);
        steps = steps + out.before + 1;
        if interrupt_ends(first, gave) {
            return ended(level, core, steps, gave, references, Reason::Interrupt);
        }
    }
    let reason = at_rest(first, level, core);
    ended(level, core, steps, gave, references, reason)
}
