// ION to MST, SEX and REX.
ghost use Rattle.std.specs.Prelude.{◌≡◌, ◌<◌};
ghost use Rattle.isa.specs.Machine.{level_count, with_control};
ghost use Rattle.isa.specs.System.{waited, switched, with_extended, controlled};

use crate::internal;
use arithmetic::bits::with_bit;
use isa::instruction::ControlOp;
use isa::machine::{Control, Core};

// WAIT stops with interrupts off; with them on it clears the running level's PID bit, but for level 0.
fn waited(level: u16, k: Control) -> Control
    requires { level < level_count }
    ensures { result ≡ waited level k }
{
    if k.interrupts != 1 {
        Control { stopped: 1, ..k }
    } else if level == 0 {
        k
    } else {
        Control {
            pid: with_bit(level, false, k.pid),
            ..k
        }
    }
}

// Interrupts and paging on or off.
fn switched(c: Core, interrupts: u16, paging: u16) -> Core
    ensures { result ≡ switched c interrupts paging }
{
    c.with_control(Control {
        interrupts,
        paging,
        ..c.control
    })
}

// The extended flag.
fn with_extended(c: Core, extended: u16) -> Core
    ensures { result ≡ with_control c (with_extended c.control extended) }
{
    c.with_control(Control {
        extended,
        ..c.control
    })
}

// The core c at the level, of which P is one further, after the instruction.
pub fn controlled(level: u16, c: Core, o: ControlOp) -> Core
    requires { level < level_count }
    ensures { result ≡ controlled level c o }
{
    let k = c.control;
    match o {
        ControlOp::Ion => switched(c, 1, k.paging),
        ControlOp::Iof => switched(c, 0, k.paging),
        ControlOp::Pon => switched(c, k.interrupts, 1),
        ControlOp::Pof => switched(c, k.interrupts, 0),
        ControlOp::Pion => switched(c, 1, 1),
        ControlOp::Piof => switched(c, 0, 0),
        ControlOp::Sex => with_extended(c, 1),
        ControlOp::Rex => with_extended(c, 0),
        ControlOp::Wait => c.with_control(waited(level, k)),
        ControlOp::Tra(r) => internal::read(level, c, r),
        ControlOp::Trr(r) => internal::written(c, r),
        ControlOp::Mcl(r) => internal::bits_cleared(c, r),
        ControlOp::Mst(r) => internal::bits_set(c, r),
    }
}
