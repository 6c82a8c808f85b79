// The two devices on the CPU board, document 000's section 6.9: the real-time clock, and the terminal's two halves. In
// C's layout, as is a state, whose last twelve words they are.
ghost use Rattle.std.specs.Prelude.{◌≡◌};
ghost use Rattle.isa.specs.Devices.{device_words, devices_of};
ghost use Rattle.isa.specs.DeviceInput.{input_of};

use crate::constant::{CHARACTER_RANGE, DEVICE_COUNT, READ_OUT_WORD, TICK_WORD, TYPED_WORD};

// Whether the next pulse interrupts, whether a pulse has come, and the interrupt flip-flop.
#[repr(C)]
#[derive(Clone, Copy)]
pub struct Clock {
    pub enabled: u16,
    pub ready: u16,
    pub asks: u16,
}

// Whether a character typed interrupts, whether the last one is unread, the interrupt flip-flop, that character, and
// the length code.
#[repr(C)]
#[derive(Clone, Copy)]
pub struct TerminalInput {
    pub enabled: u16,
    pub unread: u16,
    pub asks: u16,
    pub character: u16,
    pub length: u16,
}

// Whether a character read out interrupts, whether one waits, the interrupt flip-flop, and the character sent last.
#[repr(C)]
#[derive(Clone, Copy)]
pub struct TerminalOutput {
    pub enabled: u16,
    pub waits: u16,
    pub asks: u16,
    pub character: u16,
}

#[repr(C)]
#[derive(Clone, Copy)]
pub struct Devices {
    pub clock: Clock,
    pub input: TerminalInput,
    pub output: TerminalOutput,
}

// The devices' words in image order.
pub type DeviceWords = [u16; DEVICE_COUNT];

impl From<Devices> for DeviceWords {
    ghost from_gives = { λ d ws. ws ≡ device_words d };

    fn from(d: Devices) -> DeviceWords {
        [
            d.clock.enabled,
            d.clock.ready,
            d.clock.asks,
            d.input.enabled,
            d.input.unread,
            d.input.asks,
            d.input.character,
            d.input.length,
            d.output.enabled,
            d.output.waits,
            d.output.asks,
            d.output.character,
        ]
    }
}

impl From<DeviceWords> for Devices {
    ghost from_gives = { λ ws d. d ≡ devices_of ws };

    fn from(words: DeviceWords) -> Devices {
        Devices {
            clock: Clock {
                enabled: words[0],
                ready: words[1],
                asks: words[2],
            },
            input: TerminalInput {
                enabled: words[3],
                unread: words[4],
                asks: words[5],
                character: words[6],
                length: words[7],
            },
            output: TerminalOutput {
                enabled: words[8],
                waits: words[9],
                asks: words[10],
                character: words[11],
            },
        }
    }
}

// The registers that IOX and IOXT reach.
#[derive(Clone, Copy)]
pub enum DeviceRegister {
    ClockData,
    ClockCounter,
    ClockStatus,
    ClockControl,
    InputData,
    InputNothing,
    InputStatus,
    InputControl,
    OutputNothing,
    OutputData,
    OutputStatus,
    OutputControl,
}

// The interrupt that IDENT asks about, by its device.
#[derive(Clone, Copy)]
pub enum Line {
    OutputLine,
    InputLine,
    ClockLine,
}

// What is handed in between steps: a level raised, a tick, a character typed, and that a character sent is read out.
#[derive(Clone, Copy)]
pub enum DeviceInput {
    Raise(u16),
    Tick,
    Typed(u16),
    ReadOut,
}

// An input as a word.
impl From<u16> for DeviceInput {
    ghost from_gives = { λ w i. i ≡ input_of w };

    #[tactic(auto, unfolding(crate::specs::DeviceInput::input_of))]
    fn from(w: u16) -> DeviceInput {
        if w == TICK_WORD {
            DeviceInput::Tick
        } else if w == READ_OUT_WORD {
            DeviceInput::ReadOut
        } else if TYPED_WORD <= w && w - TYPED_WORD < CHARACTER_RANGE {
            DeviceInput::Typed(w - TYPED_WORD)
        } else {
            DeviceInput::Raise(w)
        }
    }
}
