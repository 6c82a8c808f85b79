// What leaves the level: the running level's words are put back, what is left is done on the lent ones, and they are
// taken out again.
ghost use Rattle.isa.specs.Machine.{level_count};
ghost use Rattle.std.specs.Prelude.{◌≡◌, ◌<◌};
ghost use Rattle.isa.specs.Machine.{pack};
ghost use Rattle.isa.specs.Step.{far_stage};
ghost use Rattle.levels.specs.Changes.{advanced_turn};
ghost use Rattle.level_effects.specs.Leaving.{leaving};

use crate::block::{block_loaded, block_stored};
use isa::answer::{Far, Near};
use isa::machine::{Core, PageTables, Pcrs, RegisterWords};
use levels::change::Advanced;
use levels::pcr::{pcr_read, pcr_written};
use levels::registers::{called, register_read, register_written};

// What a step leaves beside the lent words, without a reference.
fn turned(level: u16, before: u64, c: Core, gave: u16) -> Advanced
    ensures { result ≡ leaving level before c 0 gave }
{
    Advanced {
        level,
        core: c,
        before,
        references: 0,
        gave,
    }
}

// What the running level left to be done; before: the steps before this one. The references are those made here.
#[tactic(auto, unfolding(isa::specs::Step::far_stage))]
pub fn settle(
    level: u16,
    before: u64,
    n: Near,
    regs: &mut RegisterWords,
    pcrs: &mut Pcrs,
    mem: &mut [u16],
    tables: &mut PageTables,
) -> Advanced
    requires level_lt_level_count { level < level_count }
    ensures level_value { (result.level ≡ level) × (result.before ≡ before) }
    ensures tables_after { advanced_turn result regs.new pcrs.new mem.new tables.new
        ≡ far_stage (pack level n.core regs.old pcrs.old) n.gave mem.old
        tables.old n.far }
{
    let c = n.core;
    match n.far {
        None => turned(level, before, c, n.gave),
        Some(Far::Call(w)) => turned(level, before, called(level, c, regs, w), n.gave),
        Some(Far::ReadRegister(l, r)) => turned(
            level,
            before,
            register_read(level, c, regs, l, r),
            n.gave,
        ),
        Some(Far::WriteRegister(l, r)) => turned(
            level,
            before,
            register_written(level, c, regs, l, r),
            n.gave,
        ),
        Some(Far::ReadPcr) => turned(level, before, pcr_read(level, c, pcrs), n.gave),
        Some(Far::WritePcr) => turned(level, before, pcr_written(level, c, pcrs), n.gave),
        Some(Far::StoreBlock(l)) => block_stored(level, before, c, regs, mem, tables, l),
        Some(Far::LoadBlock(l)) => block_loaded(level, before, c, regs, mem, tables, l),
    }
}
