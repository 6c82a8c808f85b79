// All that reaches the devices, in one function: two callers keep it out of a run's loop (docs/BENCHMARK.md).
ghost use Rattle.isa.specs.InputOutput.{ticked, typed, read_out};
ghost use Rattle.devices.specs.Events.{Leaves, Acts};

use crate::ident::{identify, line_of};
use crate::register::{exchange, register_of};
use crate::{Acted, clock_asking, input_asking, output_asking};
use isa::device::{Clock, Devices, TerminalInput, TerminalOutput};

// IOX or IOXT with an address, IDENT with a code; a tick, a character typed, which stands in A's place, and one read
// out.
#[derive(Clone, Copy)]
pub enum DeviceEvent {
    Exchange(u64),
    Identify(u16),
    Tick,
    Typed,
    ReadOut,
}

// A tick: the clock is ready.
fn ticked(d: Devices, pid: u16, a: u16) -> Acted
    ensures { Leaves pid d a ticked result }
{
    clock_asking(
        d,
        pid,
        a,
        Clock {
            ready: 1,
            ..d.clock
        },
    )
}

// A typed character: the last one, unread.
fn typed(d: Devices, pid: u16, a: u16) -> Acted
    ensures { Leaves pid d a (λ k. typed k a) result }
{
    let input = TerminalInput {
        unread: 1,
        character: a,
        ..d.input
    };
    input_asking(d, pid, a, input)
}

// The character sent is read out: none waits.
fn read_out(d: Devices, pid: u16, a: u16) -> Acted
    ensures { Leaves pid d a read_out result }
{
    output_asking(
        d,
        pid,
        a,
        TerminalOutput {
            waits: 0,
            ..d.output
        },
    )
}

// None where no device answers.
pub fn act(d: Devices, pid: u16, a: u16, e: DeviceEvent) -> Option<Acted>
    ensures { Acts a pid d e result }
{
    match e {
        DeviceEvent::Exchange(n) => Some(exchange(d, pid, a, register_of(n)?)),
        DeviceEvent::Identify(n) => identify(d, pid, a, line_of(n)),
        DeviceEvent::Tick => Some(ticked(d, pid, a)),
        DeviceEvent::Typed => Some(typed(d, pid, a)),
        DeviceEvent::ReadOut => Some(read_out(d, pid, a)),
    }
}
