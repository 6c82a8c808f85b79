// What is handed in between steps: a level raised, a tick, a typed character, and that a character is read out.
ghost use Rattle.std.specs.Prelude.{◌≡◌, true, List, ℕ};
ghost use Rattle.isa.specs.Machine.{with_bit, state_with};
ghost use Rattle.isa.specs.System.{with_pid};
ghost use Rattle.isa.specs.InputOutput.{ticked, typed, read_out};
ghost use Rattle.isa.specs.Answers.{device_level};
ghost use Rattle.isa.specs.DeviceInput.{input_call};
ghost use Rattle.devices.specs.Events.{core_with, event_core, control_after};
ghost use Rattle.isa.specs.declared.machine.File.{File};

use crate::event::{DeviceEvent, act};
use arithmetic::bits::with_bit;
use isa::answer::Refusal;
use isa::constant::CHARACTER_RANGE;
use isa::device::DeviceInput;
use isa::machine::Control;

// The levels that devices raise.
pub fn device_level(l: u16) -> bool
    ensures { result ≡ device_level l }
{
    matches!(l, 10..=13 | 15)
}

// A device level's bit of PID set.
pub fn raised(k: Control, l: u16) -> Control
    requires { device_level l ≡ true }
    ensures { result ≡ with_pid k (with_bit l 1 k.pid) }
{
    Control {
        pid: with_bit(l, true, k.pid),
        ..k
    }
}

// The control words after what is handed in, with a typed character.
fn after(k: Control, w: u16, e: DeviceEvent) -> Control
    ensures { (f : File) (p : ℕ) → result ≡ control_after k (event_core (core_with f p k w k.pid k.devices) e) }
{
    match act(k.devices, k.pid, w, e) {
        Some(x) => Control {
            pid: x.pid,
            devices: x.devices,
            ..k
        },
        None => k,
    }
}

// A tick.
pub fn ticked(k: Control) -> Control
    ensures { result ≡ ticked k }
{
    after(k, 0, DeviceEvent::Tick)
}

// A typed character.
pub fn typed(k: Control, w: u16) -> Control
    ensures { result ≡ typed k w }
{
    after(k, w, DeviceEvent::Typed)
}

// The character sent is read out.
pub fn read_out(k: Control) -> Control
    ensures { result ≡ read_out k }
{
    after(k, 0, DeviceEvent::ReadOut)
}

// What an input is told, and the control words after it. `told` is a number, as input_call and the list of what a run's
// inputs were told have it: 0, a refusal's number, or what was read out.
#[derive(Clone, Copy)]
pub struct HandedIn {
    pub told: u16,
    pub control: Control,
}

fn told(told: u16, control: Control) -> HandedIn
    ensures { result ≡ record { told = told; control = control } }
{
    HandedIn { told, control }
}

// An input, its start having been tested: whatever the level, the registers and the PCRs are.
pub fn hand_in(i: DeviceInput, k: Control) -> HandedIn
    ensures { (l : ℕ) (b p : List ℕ) → input_call i (state_with l k b p)
        ≡ record { told = result.told; state = state_with l result.control b p } }
{
    match i {
        DeviceInput::Raise(l) if device_level(l) => told(0, raised(k, l)),
        DeviceInput::Raise(_) => told(Refusal::RaiseLevel.into(), k),
        DeviceInput::Tick => told(0, ticked(k)),
        DeviceInput::Typed(_) if k.devices.input.unread == 1 => told(Refusal::Unread.into(), k),
        DeviceInput::Typed(w) => told(0, typed(k, w)),
        DeviceInput::ReadOut if k.devices.output.waits == 1 => told(
            k.devices.output.character,
            read_out(k),
        ),
        DeviceInput::ReadOut => told(CHARACTER_RANGE, k),
    }
}
