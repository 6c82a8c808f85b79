// The registers that IOX and IOXT reach.
ghost use Rattle.std.specs.Prelude.{◌≡◌, cond, eqb};
ghost use Rattle.isa.specs.Machine.{bit};
ghost use Rattle.isa.specs.InputOutput.{register_of, ready_status, length_of, low_bits, character_read, input_controlled};
ghost use Rattle.isa.specs.InputOutput.{character_sent, output_controlled, clock_controlled, output_ready};
ghost use Rattle.devices.specs.Events.{Leaves, Exchanges};

use crate::{Acted, answered, clock_asking, input_asking, output_asking, output_ready};
use arithmetic::bits::bit;
use isa::constant::LENGTH_RANGE;
use isa::device::{Clock, DeviceRegister, Devices, TerminalInput, TerminalOutput};

// The register at an address; all its bits count.
#[tactic(auto, unfolding(isa::specs::InputOutput::register_of))]
pub(crate) fn register_of(a: u64) -> Option<DeviceRegister>
    ensures { result ≡ register_of a }
{
    Some(match a {
        0o10 => DeviceRegister::ClockData,
        0o11 => DeviceRegister::ClockCounter,
        0o12 => DeviceRegister::ClockStatus,
        0o13 => DeviceRegister::ClockControl,
        0o300 => DeviceRegister::InputData,
        0o301 => DeviceRegister::InputNothing,
        0o302 => DeviceRegister::InputStatus,
        0o303 => DeviceRegister::InputControl,
        0o304 => DeviceRegister::OutputNothing,
        0o305 => DeviceRegister::OutputData,
        0o306 => DeviceRegister::OutputStatus,
        0o307 => DeviceRegister::OutputControl,
        _ => return None,
    })
}

// A status word: bit 0 enabled, bit 3 ready.
fn ready_status(enabled: u16, ready: u16) -> u16
    ensures { result ≡ ready_status enabled ready }
{
    enabled % 2 + ready % 2 * 8
}

// The length code of an input control word, bits 12-11.
fn length_of(w: u16) -> u16
    ensures { result ≡ length_of w }
{
    w / 2048 % LENGTH_RANGE
}

// The low 8 to 5 bits of a word, by the length code.
fn low_bits(length: u16, w: u16) -> u16
    ensures { result ≡ low_bits length w }
{
    match length % LENGTH_RANGE {
        0 => w % 256,
        1 => w % 128,
        2 => w % 64,
        _ => w % 32,
    }
}

// Bit 0 of a control word: whether the device's next ready interrupts.
fn enabled(w: u16) -> u16
    ensures { result ≡ bit 0 w }
{
    u16::from(bit(0, w))
}

// 012.
fn clock_status(d: Devices, pid: u16) -> Acted
    ensures { Leaves pid d (ready_status d.clock.enabled d.clock.ready) (λ k. k) result }
{
    answered(ready_status(d.clock.enabled, d.clock.ready), pid, d)
}

// What the clock's ready becomes: bit 13 clears it.
fn ready_after(w: u16, ready: u16) -> u16
    ensures { result ≡ cond (eqb (bit 13 w) 1) 0 ready }
{
    if bit(13, w) { 0 } else { ready }
}

// 013.
fn clock_controlled(d: Devices, pid: u16, a: u16) -> Acted
    ensures { Leaves pid d a (λ k. clock_controlled k a) result }
{
    let clock = Clock {
        enabled: enabled(a),
        ready: ready_after(a, d.clock.ready),
        ..d.clock
    };
    clock_asking(d, pid, a, clock)
}

// 0300: the last character is read.
fn character_read(d: Devices, pid: u16) -> Acted
    ensures { Leaves pid d (low_bits d.input.length d.input.character) character_read result }
{
    let input = TerminalInput {
        unread: 0,
        ..d.input
    };
    answered(
        low_bits(input.length, input.character),
        pid,
        Devices { input, ..d },
    )
}

// 0302.
fn input_status(d: Devices, pid: u16) -> Acted
    ensures { Leaves pid d (ready_status d.input.enabled d.input.unread) (λ k. k) result }
{
    answered(ready_status(d.input.enabled, d.input.unread), pid, d)
}

// 0303.
fn input_controlled(d: Devices, pid: u16, a: u16) -> Acted
    ensures { Leaves pid d a (λ k. input_controlled k a) result }
{
    let input = TerminalInput {
        enabled: enabled(a),
        length: length_of(a),
        ..d.input
    };
    input_asking(d, pid, a, input)
}

// 0305: a character is sent, and waits; one that waited is gone.
fn character_sent(d: Devices, pid: u16, a: u16) -> Acted
    ensures { Leaves pid d a (λ k. character_sent k a) result }
{
    let output = TerminalOutput {
        waits: 1,
        character: low_bits(d.input.length, a),
        ..d.output
    };
    answered(a, pid, Devices { output, ..d })
}

// 0306.
fn output_status(d: Devices, pid: u16) -> Acted
    ensures { Leaves pid d (ready_status d.output.enabled (output_ready d.output)) (λ k. k) result }
{
    answered(
        ready_status(d.output.enabled, output_ready(d.output)),
        pid,
        d,
    )
}

// 0307.
fn output_controlled(d: Devices, pid: u16, a: u16) -> Acted
    ensures { Leaves pid d a (λ k. output_controlled k a) result }
{
    let output = TerminalOutput {
        enabled: enabled(a),
        ..d.output
    };
    output_asking(d, pid, a, output)
}

// A transfer: an even register gives A a word, an odd one is given A.
pub(crate) fn exchange(d: Devices, pid: u16, a: u16, r: DeviceRegister) -> Acted
    ensures { Exchanges a pid d r result }
{
    match r {
        DeviceRegister::ClockData => answered(0, pid, d),
        DeviceRegister::ClockCounter => answered(a, pid, d),
        DeviceRegister::ClockStatus => clock_status(d, pid),
        DeviceRegister::ClockControl => clock_controlled(d, pid, a),
        DeviceRegister::InputData => character_read(d, pid),
        DeviceRegister::InputNothing => answered(a, pid, d),
        DeviceRegister::InputStatus => input_status(d, pid),
        DeviceRegister::InputControl => input_controlled(d, pid, a),
        DeviceRegister::OutputNothing => answered(0, pid, d),
        DeviceRegister::OutputData => character_sent(d, pid, a),
        DeviceRegister::OutputStatus => output_status(d, pid),
        DeviceRegister::OutputControl => output_controlled(d, pid, a),
    }
}
