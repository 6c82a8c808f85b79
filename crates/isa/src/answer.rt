// What a step leaves, and what callers are answered.
use crate::machine::{Core, Register, State};

// What an instruction leaves to be done outside its level: MON's number for level 14; a register of another level or a
// PCR, to A or from A; a register block, to memory or from it.
#[derive(Clone, Copy)]
pub enum Far {
    Call(u16),
    ReadRegister(u16, Register),
    WriteRegister(u16, Register),
    ReadPcr,
    WritePcr,
    StoreBlock(u16),
    LoadBlock(u16),
}

// What a step leaves of the running level: its words, the number of the interrupt that it gave, or 0, what is left to
// be done, if anything, and the references made. The number stays one, 0 for none, here and in all that hand it on: the
// definition Step.Turn and the C interface have it so.
#[derive(Clone, Copy)]
pub struct Near {
    pub core: Core,
    pub gave: u16,
    pub far: Option<Far>,
    pub references: u32,
}

// Why a run ended.
#[derive(Clone, Copy, PartialEq, Eq)]
pub enum Reason {
    Stopped,
    Level,
    Spent,
    Interrupt,
}

// What a view is of.
#[derive(Clone, Copy, PartialEq, Eq)]
pub enum Target {
    Memory,
    Tables,
}

// Why an operation refused: Unread is a typed character's; the last three are the conversions' of the floating forms.
#[derive(Clone, Copy, PartialEq, Eq)]
pub enum Refusal {
    Sizes,
    State,
    RaiseLevel,
    Contents,
    Kind,
    Target,
    Overlap,
    Bodies,
    View,
    Output,
    Unread,
    Malformed,
    ExponentRange,
    Precision,
}

// What a run did: the steps taken, why it ended, and the memory references made.
#[derive(Clone, Copy)]
pub struct Ran {
    pub steps: u64,
    pub reason: Reason,
    pub references: u64,
}

// What is answered, and the state that is left: of a step its interrupt's number or 0; of a run what it did; of a read
// out the character sent last, or none; of raise, tick, a typed character and load nothing more.
#[derive(Clone, Copy)]
pub struct Answered<T> {
    pub answer: Result<T, Refusal>,
    pub state: State,
}
