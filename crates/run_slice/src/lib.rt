// Steps up to the first that has to do with more than the running level.
#![tactic(auto)]

ghost use Rattle.isa.specs.Machine.{level_count};
ghost use Rattle.std.specs.Prelude.{◌≡◌, ◌<◌, false, ◌==◌};
ghost use Rattle.isa.specs.Machine.{pack};
ghost use Rattle.isa.specs.Step.{step};
ghost use Rattle.levels.specs.Changes.{advanced_turn};
ghost use Rattle.run_level.specs.Bursts.{leaves, low_turn, burst_part};
ghost use Rattle.run_slice.specs.Advances.{Advance};

use isa::machine::{Control, Core, PageTables, Pcrs, RegisterWords};
use level_effects::settle::settle;
use levels::change::{Advanced, change_due, changed};
use run_level::{Burst, quiet_steps};
use trap::after_event;

// What is left of the last step of a burst; its references are added to the burst's.
fn settled(
    level: u16,
    b: Burst,
    k: Control,
    regs: &mut RegisterWords,
    pcrs: &mut Pcrs,
    mem: &mut [u16],
    tables: &mut PageTables,
) -> Advanced
    requires level_lt_level_count { level < level_count }
    ensures level_value { (result.level ≡ level) × (result.before ≡ b.before) }
    ensures tables_after { advanced_turn result regs.new pcrs.new mem.new tables.new
        ≡ low_turn (leaves level regs.old pcrs.old
        (burst_part level k b mem.old tables.old)) }
{
    let c = Core {
        file: b.file,
        pcr: b.pcr,
        control: k,
    };
    let n = after_event(level, c, mem, tables, b.event);
    let made = b.references.wrapping_add(n.references as u64);
    let r = settle(level, b.before, n, regs, pcrs, mem, tables);
    Advanced {
        references: made.wrapping_add(r.references),
        ..r
    }
}

// At most n steps, one or more, of a machine that is not stopped: a change of level, or a burst.
pub fn advance(
    level: u16,
    c: Core,
    regs: &mut RegisterWords,
    pcrs: &mut Pcrs,
    mem: &mut [u16],
    tables: &mut PageTables,
    n: u64,
) -> Advanced
    requires level_lt_level_count { level < level_count }
    requires n_nonzero { 0 < n }
    requires stopped_value { (c.control.stopped == 1) ≡ false }
    ensures level_lt_level_count { (result.level < level_count) × (result.before < n) }
    ensures advance { Advance (pack level c regs.old pcrs.old) mem.old
        tables.old n result
        (advanced_turn result regs.new pcrs.new mem.new tables.new) }
    ensures tables_value { result.before ≡ 0
        → step (pack level c regs.old pcrs.old) mem.old tables.old
        ≡ advanced_turn result regs.new pcrs.new mem.new tables.new }
{
    let k = c.control;
    if change_due(level, k) {
        return changed(level, c, regs, pcrs);
    }
    let b = quiet_steps(c.file, c.pcr, k.paging, k.extended, mem, tables, n);
    settled(level, b, k, regs, pcrs, mem, tables)
}
