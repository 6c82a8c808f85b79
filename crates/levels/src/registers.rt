// Registers of other levels. The running level's are among the lent ones here.
ghost use Rattle.isa.specs.Machine.{level_count};
ghost use Rattle.std.specs.Prelude.{◌≡◌, cond, ◌&&◌, List, ℕ, ◌<◌, ◌%◌, eqb, set};
ghost use Rattle.isa.specs.Machine.{pack};
ghost use Rattle.isa.specs.Step.{place_of, kept, is_p, with_regs, register_at, put_other};
ghost use Rattle.levels.specs.Words.{own_a, with_a, with_call};

use crate::{file_at, put_file};
use isa::constant::{INTERNAL_LEVEL, LEVELS, STATUS_RANGE};
use isa::machine::{Core, Register, RegisterWords};

// A word for a register: STS keeps bits 7-0 only.
fn kept(r: Register, w: u16) -> u16
    ensures { result ≡ kept r w }
{
    if r == Register::Sts {
        w % STATUS_RANGE
    } else {
        w
    }
}

// A word to register r of level l; P of the running level is not written.
#[tactic(auto, using(isa::proofs::Packing::register_set))]
fn put_other(level: u16, regs: &mut RegisterWords, l: u16, r: Register, w: u16)
    ensures { regs.new ≡ cond (eqb (l % level_count) level && is_p r) regs.old
        (set regs.old (place_of l r) (kept r w)) }
{
    if l % LEVELS == level && r == Register::P {
        return;
    }
    let g = file_at(regs, l % LEVELS);
    put_file(regs, l % LEVELS, g.with(r, kept(r, w)));
}

// The running level's words are taken out again.
#[tactic(auto, using(isa::proofs::Packing::put_take))]
pub fn reloaded(level: u16, c: Core, regs: &RegisterWords) -> Core
    requires level_lt_level_count { level < level_count }
    ensures { (b p : List ℕ) → pack level result regs.now p
        ≡ with_regs (pack level c b p) regs.now }
{
    c.with_file(file_at(regs, level))
}

// MON: its number to T of level 14.
pub fn called(level: u16, c: Core, regs: &mut RegisterWords, w: u16) -> Core
    requires level_lt_level_count { level < level_count }
    ensures { (p : List ℕ) → pack level result regs.new p
        ≡ with_call (pack level c regs.old p) w }
{
    put_file(regs, level, c.file);
    let g = file_at(regs, INTERNAL_LEVEL);
    put_file(regs, INTERNAL_LEVEL, g.with(Register::T, w));
    reloaded(level, c, regs)
}

// IRR: a register of a level to A.
#[tactic(auto, using(isa::proofs::Packing::put_put, isa::proofs::Packing::register_at_law, crate::proofs::TransferLaws::own_a_law))]
pub fn register_read(level: u16, c: Core, regs: &mut RegisterWords, l: u16, r: Register) -> Core
    requires level_lt_level_count { level < level_count }
    ensures { (p : List ℕ) → pack level result regs.new p
        ≡ with_a (pack level c regs.old p) (register_at (pack level c regs.old p) l r) }
{
    put_file(regs, level, c.file);
    let g = file_at(regs, l % LEVELS);
    c.with_file(c.file.with(Register::A, g.get(r)))
}

// IRW: A to a register of a level.
pub fn register_written(level: u16, c: Core, regs: &mut RegisterWords, l: u16, r: Register) -> Core
    requires level_lt_level_count { level < level_count }
    ensures { (p : List ℕ) → pack level result regs.new p
        ≡ put_other (pack level c regs.old p) l r (own_a (pack level c regs.old p)) }
{
    put_file(regs, level, c.file);
    put_other(level, regs, l, r, c.file.get(Register::A));
    reloaded(level, c, regs)
}
