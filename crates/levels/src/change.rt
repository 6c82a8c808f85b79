// A change of level.
ghost use Rattle.isa.specs.Machine.{level_count};
ghost use Rattle.std.specs.Prelude.{◌≡◌, List, ℕ, ◌<◌};
ghost use Rattle.isa.specs.Machine.{pack};
ghost use Rattle.isa.specs.Step.{highest_level, level_changed, turn};
ghost use Rattle.levels.specs.Changes.{due_at, advanced_turn};

use crate::{opened, put_back};
use arithmetic::bits;
use isa::machine::{Control, Core, Pcrs, RegisterWords};

// The running level, its words, the steps before the last, the references of all of them, and the interrupt that the
// last gave, or 0.
#[derive(Clone, Copy)]
pub struct Advanced {
    pub level: u16,
    pub core: Core,
    pub before: u64,
    pub references: u64,
    pub gave: u16,
}

// The highest level in PID and PIE, 0 if none.
fn highest_level(k: Control) -> u16
    ensures value { result ≡ highest_level k }
    ensures upper_bound { result < level_count }
{
    bits::highest(k.pid & k.pie)
}

// Interrupts are on, and the highest level is not the running one.
pub fn change_due(level: u16, k: Control) -> bool
    ensures { result ≡ due_at level k }
{
    k.interrupts == 1 && highest_level(k) != level
}

// PVL takes the old level, the new one runs: its words are taken out of the lent ones.
#[tactic(auto, using(crate::proofs::Changes::changed_level))]
pub fn changed(level: u16, c: Core, regs: &mut RegisterWords, pcrs: &mut Pcrs) -> Advanced
    requires level_lt_level_count { level < level_count }
    ensures level_after { (result.level < level_count) × (result.before ≡ 0) }
    ensures by_index { (m t : List ℕ) → advanced_turn result regs.new pcrs.new m t
        ≡ turn (level_changed (pack level c regs.old pcrs.old)) 0 m t }
{
    put_back(level, c, regs, pcrs);
    let to = highest_level(c.control);
    let control = Control {
        pvl: level,
        ..c.control
    };
    Advanced {
        level: to,
        core: opened(to, control, regs, pcrs),
        before: 0,
        references: 0,
        gave: 0,
    }
}
