// IDENT: which device asks on a level.
ghost use Rattle.std.specs.Prelude.{◌≡◌};
ghost use Rattle.isa.specs.InputOutput.{line_of, flip_flop, without_asking};
ghost use Rattle.devices.specs.Events.{Identifies};

use crate::{Acted, answered};
use isa::constant::IDENT_CODE;
use isa::device::{Devices, Line};

// The line that a code names.
#[tactic(auto, unfolding(isa::specs::InputOutput::line_of))]
pub(crate) fn line_of(n: u16) -> Option<Line>
    ensures { result ≡ line_of n }
{
    match n {
        0o04 => Some(Line::OutputLine),
        0o22 => Some(Line::InputLine),
        0o43 => Some(Line::ClockLine),
        _ => None,
    }
}

// Whether the device on it asks, 1 or 0.
fn flip_flop(d: Devices, i: Line) -> u16
    ensures { result ≡ flip_flop d (Some i) }
{
    match i {
        Line::OutputLine => d.output.asks,
        Line::InputLine => d.input.asks,
        Line::ClockLine => d.clock.asks,
    }
}

fn without_asking(mut d: Devices, i: Line) -> Devices
    ensures { result ≡ without_asking d (Some i) }
{
    match i {
        Line::OutputLine => d.output.asks = 0,
        Line::InputLine => d.input.asks = 0,
        Line::ClockLine => d.clock.asks = 0,
    }
    d
}

// The code of the device that asks, whose flip-flop is cleared; none, where none asks on the line.
pub(crate) fn identify(d: Devices, pid: u16, a: u16, i: Option<Line>) -> Option<Acted>
    ensures { Identifies a pid d i result }
{
    match i {
        Some(i) if flip_flop(d, i) == 1 => Some(answered(IDENT_CODE, pid, without_asking(d, i))),
        _ => None,
    }
}
