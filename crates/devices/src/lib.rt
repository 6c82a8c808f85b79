// The real-time clock and the terminal on the CPU board: their registers, their interrupts, and what is handed in
// between steps. Each function takes the word in A, PID and the devices and hands them back, so that the core, which
// every instruction of a run passes on, is taken apart in one place (docs/BENCHMARK.md).
#![tactic(auto)]

ghost use Rattle.std.specs.Prelude.{◌≡◌, ◌<◌};
ghost use Rattle.isa.specs.InputOutput.{asking, flip_flop_after, pid_after, clock_asking, input_asking, output_ready};
ghost use Rattle.isa.specs.InputOutput.{output_asking};
ghost use Rattle.devices.specs.Events.{Leaves};

use arithmetic::bits::with_bit;
use isa::constant::{CLOCK_LEVEL, INPUT_LEVEL, OUTPUT_LEVEL};
use isa::device::{Clock, Devices, TerminalInput, TerminalOutput};

pub mod event;
pub mod handed;
mod ident;
mod register;

// A, PID and the devices after a device answered.
#[derive(Clone, Copy)]
pub struct Acted {
    pub a: u16,
    pub pid: u16,
    pub devices: Devices,
}

fn answered(a: u16, pid: u16, devices: Devices) -> Acted
    ensures { Leaves pid devices a (λ k. k) result }
{
    Acted { a, pid, devices }
}

// A device asks for an interrupt where it is enabled and ready.
fn asking(enabled: u16, ready: u16) -> bool
    ensures { result ≡ asking enabled ready }
{
    enabled == 1 && ready == 1
}

// Its flip-flop is set then ..
fn flip_flop_after(now: bool, v: u16) -> u16
    ensures { result ≡ flip_flop_after now v }
{
    if now { 1 } else { v }
}

// .. and the PID bit of its level.
fn pid_after(now: bool, level: u16, pid: u16) -> u16
    requires { level < 16 }
    ensures { result ≡ pid_after now level pid }
{
    if now { with_bit(level, true, pid) } else { pid }
}

// The clock, now x, asks if it is enabled and ready. One function for each device: a generic one would be told its
// fields, its level and where it stands, and is no plainer.
fn clock_asking(d: Devices, pid: u16, a: u16, x: Clock) -> Acted
    ensures { Leaves pid d a (λ k. clock_asking k x) result }
{
    let now = asking(x.enabled, x.ready);
    let asks = flip_flop_after(now, x.asks);
    let clock = Clock { asks, ..x };
    let devices = Devices { clock, ..d };
    answered(a, pid_after(now, CLOCK_LEVEL, pid), devices)
}

// So does terminal input ..
fn input_asking(d: Devices, pid: u16, a: u16, x: TerminalInput) -> Acted
    ensures { Leaves pid d a (λ k. input_asking k x) result }
{
    let now = asking(x.enabled, x.unread);
    let asks = flip_flop_after(now, x.asks);
    let input = TerminalInput { asks, ..x };
    let devices = Devices { input, ..d };
    answered(a, pid_after(now, INPUT_LEVEL, pid), devices)
}

// Output is ready while no character waits.
fn output_ready(x: TerminalOutput) -> u16
    ensures { result ≡ output_ready x }
{
    u16::from(x.waits == 0)
}

// .. and terminal output.
fn output_asking(d: Devices, pid: u16, a: u16, x: TerminalOutput) -> Acted
    ensures { Leaves pid d a (λ k. output_asking k x) result }
{
    let now = asking(x.enabled, output_ready(x));
    let asks = flip_flop_after(now, x.asks);
    let output = TerminalOutput { asks, ..x };
    let devices = Devices { output, ..d };
    answered(a, pid_after(now, OUTPUT_LEVEL, pid), devices)
}
