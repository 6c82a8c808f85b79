// What the machine keeps: registers, control words, and the parts that the engine keeps apart.
ghost use Rattle.std.specs.Prelude.{◌≡◌, ◌<◌};
ghost use Rattle.isa.specs.Machine.{number, reg, with_reg, next, control_of, state_with, with_file, with_pcr};
ghost use Rattle.isa.specs.Machine.{with_control};

use crate::constant::{LEVEL_COUNT, REGISTER_WORDS, TABLE_WORDS};
use crate::device::Devices;

// The registers of a level, in the order of their numbers 0 to 7.
#[derive(Clone, Copy, PartialEq, Eq)]
pub enum Register {
    Sts,
    D,
    P,
    B,
    L,
    A,
    T,
    X,
}

impl Register {
    pub fn index(self) -> usize
        ensures value { result ≡ number self }
        ensures upper_bound { result < 8 }
    {
        self as usize
    }
}

// A level's registers are one file, and a write changes one place of it. The fields stand in an order that this
// compiler copies cheaply (docs/BENCHMARK.md).
#[derive(Clone, Copy)]
pub struct File {
    pub d: u16,
    pub p: u16,
    pub sts: u16,
    pub a: u16,
    pub x: u16,
    pub t: u16,
    pub b: u16,
    pub l: u16,
}

impl File {
    pub fn get(self, r: Register) -> u16
        ensures { result ≡ reg self r }
    {
        match r {
            Register::Sts => self.sts,
            Register::D => self.d,
            Register::P => self.p,
            Register::B => self.b,
            Register::L => self.l,
            Register::A => self.a,
            Register::T => self.t,
            Register::X => self.x,
        }
    }

    pub fn with(mut self, r: Register, v: u16) -> File
        ensures { result ≡ with_reg self r v }
    {
        match r {
            Register::Sts => {
                self.sts = v;
            }
            Register::D => {
                self.d = v;
            }
            Register::P => {
                self.p = v;
            }
            Register::B => {
                self.b = v;
            }
            Register::L => {
                self.l = v;
            }
            Register::A => {
                self.a = v;
            }
            Register::T => {
                self.t = v;
            }
            Register::X => {
                self.x = v;
            }
        }
        self
    }

    // P one further; the sum drops the carry.
    pub fn next(mut self) -> File
        ensures { result ≡ next self }
    {
        self.p = self.p.wrapping_add(1);
        self
    }
}

// The control words 1 to 9 of a state. In C's layout, as is a state.
#[repr(C)]
#[derive(Clone, Copy)]
pub struct Scalars {
    pub interrupts: u16,
    pub paging: u16,
    pub stopped: u16,
    pub pid: u16,
    pub pie: u16,
    pub pvl: u16,
    pub iid: u16,
    pub iie: u16,
    pub pgs: u16,
}

// The control words behind the PCRs: 26, whether PGS is held; 27, the extended flag.
#[repr(C)]
#[derive(Clone, Copy)]
pub struct Added {
    pub held: u16,
    pub extended: u16,
}

// The registers and the PCRs of all levels.
pub type RegisterWords = [u16; REGISTER_WORDS];

pub type Pcrs = [u16; LEVEL_COUNT];

// The words of all page tables.
pub type PageTables = [u16; TABLE_WORDS];

// The machine as callers hand it in and get it back: register n of a level is word 8 * level + n. In C's layout its 168
// words stand in image order, with nothing between them.
#[repr(C)]
#[derive(Clone, Copy)]
pub struct State {
    pub regs: RegisterWords,
    pub level: u16,
    pub control: Scalars,
    pub pcr: Pcrs,
    pub added: Added,
    pub devices: Devices,
}

// The control words that instructions work on, 1 to 9, 26 and 27, and the devices; the level (0) and the PCRs (10 to
// 25) stand beside them. No order of them that was tried with this code takes fewer machine instructions a step of a
// run (docs/BENCHMARK.md).
#[derive(Clone, Copy)]
pub struct Control {
    pub interrupts: u16,
    pub held: u16,
    pub paging: u16,
    pub stopped: u16,
    pub pid: u16,
    pub pie: u16,
    pub extended: u16,
    pub pvl: u16,
    pub iid: u16,
    pub iie: u16,
    pub pgs: u16,
    pub devices: Devices,
}

impl State {
    // The control words that instructions work on.
    pub fn control_words(self) -> Control
        ensures { result ≡ control_of self }
    {
        let w = self.control;
        Control {
            interrupts: w.interrupts,
            held: self.added.held,
            paging: w.paging,
            stopped: w.stopped,
            pid: w.pid,
            pie: w.pie,
            pvl: w.pvl,
            iid: w.iid,
            iie: w.iie,
            pgs: w.pgs,
            extended: self.added.extended,
            devices: self.devices,
        }
    }

    // The state of its parts.
    pub fn with(level: u16, k: Control, regs: RegisterWords, pcrs: Pcrs) -> State
        ensures { result ≡ state_with level k regs pcrs }
    {
        State {
            regs,
            level,
            control: Scalars {
                interrupts: k.interrupts,
                paging: k.paging,
                stopped: k.stopped,
                pid: k.pid,
                pie: k.pie,
                pvl: k.pvl,
                iid: k.iid,
                iie: k.iie,
                pgs: k.pgs,
            },
            pcr: pcrs,
            added: Added {
                held: k.held,
                extended: k.extended,
            },
            devices: k.devices,
        }
    }
}

// What an instruction of the running level works on: the level's registers, its PCR, and those control words.
#[derive(Clone, Copy)]
pub struct Core {
    pub file: File,
    pub pcr: u16,
    pub control: Control,
}

impl Core {
    pub fn with_file(self, f: File) -> Core
        ensures { result ≡ with_file self f }
    {
        Core { file: f, ..self }
    }

    pub fn with_pcr(self, p: u16) -> Core
        ensures { result ≡ with_pcr self p }
    {
        Core { pcr: p, ..self }
    }

    pub fn with_control(self, k: Control) -> Core
        ensures { result ≡ with_control self k }
    {
        Core { control: k, ..self }
    }
}
