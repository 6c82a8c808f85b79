// A level's words: taken out of those of all levels, and put back; the change of level; registers and PCRs of other
// levels: MON, IRR, IRW, TRA PGC, TRR PCR.
// A level is a number, and each function that takes its words asks that it be below 16: it is a word of the state, which
// has C's layout, and a type of its own would be made of it and turned back in each struct that hands it on.
#![tactic(auto)]

ghost use Rattle.isa.specs.Machine.{level_count};
ghost use Rattle.std.specs.Prelude.{◌≡◌, ◌<◌, set};
ghost use Rattle.isa.specs.Machine.{file_at, put_file};
ghost use Rattle.levels.specs.Changes.{core_at};

use isa::constant::{
    FILE_SIZE, NUMBER_A, NUMBER_B, NUMBER_D, NUMBER_L, NUMBER_P, NUMBER_T, NUMBER_X,
};
use isa::machine::{Control, Core, File, Pcrs, Register, RegisterWords};

pub mod change;
pub mod pcr;
pub mod registers;

// A level's registers.
#[tactic(auto, unfolding(isa::specs::Machine::file_at))]
pub fn file_at(regs: &RegisterWords, level: u16) -> File
    requires level_lt_level_count { level < level_count }
    ensures { result ≡ file_at regs.now level }
{
    let i = level as usize * FILE_SIZE;
    File {
        p: regs[i + NUMBER_P],
        a: regs[i + NUMBER_A],
        b: regs[i + NUMBER_B],
        l: regs[i + NUMBER_L],
        d: regs[i + NUMBER_D],
        t: regs[i + NUMBER_T],
        x: regs[i + NUMBER_X],
        sts: regs[i],
    }
}

// All registers with a level's replaced.
#[tactic(auto, using(crate::proofs::LevelLaws::eight_put))]
pub fn put_file(regs: &mut RegisterWords, level: u16, f: File)
    requires level_lt_level_count { level < level_count }
    ensures { regs.new ≡ put_file regs.old level f }
{
    let i = level as usize * FILE_SIZE;
    regs[i] = f.get(Register::Sts);
    regs[i + NUMBER_D] = f.get(Register::D);
    regs[i + NUMBER_P] = f.get(Register::P);
    regs[i + NUMBER_B] = f.get(Register::B);
    regs[i + NUMBER_L] = f.get(Register::L);
    regs[i + NUMBER_A] = f.get(Register::A);
    regs[i + NUMBER_T] = f.get(Register::T);
    regs[i + NUMBER_X] = f.get(Register::X);
}

// A level's words out of those of all levels, with the control words k.
pub fn opened(level: u16, k: Control, regs: &RegisterWords, pcrs: &Pcrs) -> Core
    requires level_lt_level_count { level < level_count }
    ensures { result ≡ core_at level k regs.now pcrs.now }
{
    Core {
        file: file_at(regs, level),
        pcr: pcrs[level as usize],
        control: k,
    }
}

// .. and put back.
pub fn put_back(level: u16, c: Core, regs: &mut RegisterWords, pcrs: &mut Pcrs)
    requires level_lt_level_count { level < level_count }
    ensures regs_after { regs.new ≡ put_file regs.old level c.file }
    ensures pcrs_after { pcrs.new ≡ set pcrs.old level c.pcr }
{
    put_file(regs, level, c.file);
    pcrs[level as usize] = c.pcr;
}
