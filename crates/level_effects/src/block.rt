// Register blocks: SRB and LRB.
ghost use Rattle.isa.specs.Machine.{level_count};
ghost use Rattle.std.specs.Prelude.{◌≡◌, cond, List, ℕ, ◌<◌, length};
ghost use Rattle.isa.specs.Machine.{reg, pack};
ghost use Rattle.std.specs.declared.option.Option.TheVariants.{Some};
ghost use Rattle.isa.specs.Pages.{fault_number};
ghost use Rattle.isa.specs.Step.{faulted, with_regs, block_order, put_block, block_tested, block_stored};
ghost use Rattle.isa.specs.Step.{block_loaded};
ghost use Rattle.isa.specs.declared.access.AccessKind.TheVariants.{Read, Write};
ghost use Rattle.isa.specs.declared.machine.Register.TheVariants.{P};
ghost use Rattle.isa.specs.declared.machine.State.{State};
ghost use Rattle.memory_words.specs.Blocks.{list_of};
ghost use Rattle.levels.specs.Changes.{advanced_turn};
ghost use Rattle.level_effects.specs.Blocks.{BlockTest, with_block};
ghost use Rattle.level_effects.specs.Leaving.{leaving};

use isa::access::{AccessKind, Place};
use isa::constant::{LEVELS, STATUS_RANGE};
use isa::machine::{Core, File, PageTables, Register, RegisterWords};
use levels::change::Advanced;
use levels::registers::reloaded;
use levels::{file_at, put_file};
use memory_words::block_words::{read_block, store_block};
use memory_words::location::Location;
use memory_words::test::test_words;
use paging::failure::Failure;
use paging::place::fault_number;
use paging::rights::rights;
use trap::faulted;

// The running level's registers are put back, and the accesses of the block from the address in X on are tested.
fn tested(
    level: u16,
    c: Core,
    regs: &mut RegisterWords,
    words: usize,
    tables: &mut PageTables,
    kind: AccessKind,
) -> Result<[Place; 8], Failure>
    requires level_lt_level_count { level < level_count }
    ensures { BlockTest level c kind regs.old words tables.old result regs.new
        tables.new }
{
    put_file(regs, level, c.file);
    let x = Location {
        rights: rights(
            c.file.get(Register::Sts),
            c.pcr,
            c.control.paging,
            c.control.extended,
        ),
        alternate: true,
        address: c.file.get(Register::X),
    };
    test_words(tables, words, x, kind)
}

// What P takes of a block's word: P of the running level is left.
fn loaded_p(f: File, own: bool, w: u16) -> u16
    ensures { result ≡ cond own (reg f P) w }
{
    if own { f.get(Register::P) } else { w }
}

// A level's file with a block's words, which are those of all eight registers; STS keeps bits 7-0 only.
fn with_block(f: File, own: bool, w: File) -> File
    ensures { result ≡ with_block own f block_order (list_of w) }
{
    w.with(Register::P, loaded_p(f, own, w.get(Register::P)))
        .with(Register::Sts, w.get(Register::Sts) % STATUS_RANGE)
}

// A block's words to the registers of a level.
fn put_block(level: u16, regs: &mut RegisterWords, l: u16, w: File)
    ensures { (s : State) → s.level ≡ level → with_regs s regs.new
        ≡ put_block (with_regs s regs.old) l block_order (list_of w) }
{
    let f = file_at(regs, l % LEVELS);
    put_file(regs, l % LEVELS, with_block(f, l % LEVELS == level, w));
}

// An access of the block failed, the last that was made: the fault is the running level's.
fn block_failed(level: u16, before: u64, c: Core, e: Failure) -> Advanced
    ensures { result ≡ leaving level before (faulted (Some e.fault) c) e.made (fault_number e.fault) }
{
    Advanced {
        level,
        core: faulted(Some(e.fault), c),
        before,
        references: e.made as u64,
        gave: fault_number(e.fault),
    }
}

// SRB and LRB test alike and part then: one stores to memory that is lent to change, the other reads it.
// SRB: the registers of a level to memory.
pub fn block_stored(
    level: u16,
    before: u64,
    c: Core,
    regs: &mut RegisterWords,
    mem: &mut [u16],
    tables: &mut PageTables,
    l: u16,
) -> Advanced
    requires { level < level_count }
    ensures level_value { (result.level ≡ level) × (result.before ≡ before) }
    ensures by_index { (p : List ℕ) → length p ≡ level_count
        → advanced_turn result regs.new p mem.new tables.new
        ≡ block_stored (pack level c regs.old p) l mem.old
        (block_tested Write (pack level c regs.old p) mem.old tables.old) }
{
    match tested(level, c, regs, mem.len(), tables, AccessKind::Write) {
        Ok(places) => {
            store_block(mem, tables, &places, file_at(regs, l % LEVELS));
            Advanced {
                level,
                core: c,
                before,
                references: places.len() as u64,
                gave: 0,
            }
        }
        Err(e) => block_failed(level, before, c, e),
    }
}

// LRB: the registers of a level from memory.
pub fn block_loaded(
    level: u16,
    before: u64,
    c: Core,
    regs: &mut RegisterWords,
    mem: &[u16],
    tables: &mut PageTables,
    l: u16,
) -> Advanced
    requires { level < level_count }
    ensures level_value { (result.level ≡ level) × (result.before ≡ before) }
    ensures by_index { (p : List ℕ) → length p ≡ level_count
        → advanced_turn result regs.new p mem.now tables.new
        ≡ block_loaded (pack level c regs.old p) l mem.now
        (block_tested Read (pack level c regs.old p) mem.now tables.old) }
{
    match tested(level, c, regs, mem.len(), tables, AccessKind::Read) {
        Ok(places) => {
            put_block(level, regs, l, read_block(mem, tables, &places));
            Advanced {
                level,
                core: reloaded(level, c, regs),
                before,
                references: places.len() as u64,
                gave: 0,
            }
        }
        Err(e) => block_failed(level, before, c, e),
    }
}
