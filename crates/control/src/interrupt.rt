// Internal interrupts, and a fault's paging status.
ghost use Rattle.std.specs.Prelude.{◌≡◌, ◌<◌};
ghost use Rattle.isa.specs.Step.{detected, interrupted, gives};

use arithmetic::bits::{bit, with_bit};
use isa::constant::INTERNAL_LEVEL;
use isa::machine::{Control, Core};

// The control words with bit n of IID set.
fn detected(n: u16, k: Control) -> Control
    requires { n < 16 }
    ensures { result ≡ detected n k }
{
    Control {
        iid: with_bit(n, true, k.iid),
        ..k
    }
}

// An interrupt sets its IID bit; if IIE has it, PID bit 14 too.
#[tactic(auto, unfolding(isa::specs::Step::interrupted))]
pub fn interrupted(n: u16, k: Control) -> Control
    requires { n < 16 }
    ensures { result ≡ interrupted n k }
{
    let t = detected(n, k);
    if bit(n, k.iie) {
        Control {
            pid: with_bit(INTERNAL_LEVEL, true, k.pid),
            ..t
        }
    } else {
        t
    }
}

// The core after interrupt n.
pub fn gives(n: u16, c: Core) -> Core
    requires { n < 16 }
    ensures { result ≡ gives n c }
{
    c.with_control(interrupted(n, c.control))
}
