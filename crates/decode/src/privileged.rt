// Privileged instructions with their fields.
ghost use Rattle.std.specs.Prelude.{◌/◌, ◌%◌, ◌≡◌, ◌==◌, cond};
ghost use Rattle.isa.specs.declared.instruction.ControlOp.TheVariants.{Mcl, Mst};
ghost use Rattle.isa.specs.declared.instruction.System.TheVariants.{Irr, Irw, Physical, Iox, Ident};
ghost use Rattle.isa.specs.declared.instruction.Instruction.TheVariants.{Privileged, Illegal};
ghost use Rattle.isa.specs.Decode.{control, tra_of, trr_of, masked_of, switch_of, transfer_of, four_of};
ghost use Rattle.isa.specs.Decode.{destination_of};

use crate::fields::{destination_of, four_of};
use isa::instruction::{ControlOp, Instruction, Maskable, Readable, System, Transfer, Writable};

// An instruction on the running level and the control words.
fn control(o: ControlOp) -> Instruction
    ensures { result ≡ control o }
{
    Instruction::Privileged(System::Control(o))
}

// TRA: the internal register that is read.
#[tactic(auto, unfolding(isa::specs::Decode::by_code, isa::specs::Decode::tra_of))]
pub fn tra_of(w: u16) -> Instruction
    ensures { result ≡ tra_of (w % 64) }
{
    match w % 64 {
        0o01 => control(ControlOp::Tra(Readable::Status)),
        0o03 => control(ControlOp::Tra(Readable::Pgs)),
        0o04 => control(ControlOp::Tra(Readable::Pvl)),
        0o05 => control(ControlOp::Tra(Readable::Iic)),
        0o06 => control(ControlOp::Tra(Readable::Pid)),
        0o07 => control(ControlOp::Tra(Readable::Pie)),
        0o11 => control(ControlOp::Tra(Readable::Actl)),
        0o14 => Instruction::Privileged(System::TraPgc),
        _ => Instruction::Illegal,
    }
}

// TRR: the internal register that is written.
#[tactic(auto, unfolding(isa::specs::Decode::by_code, isa::specs::Decode::trr_of))]
pub fn trr_of(w: u16) -> Instruction
    ensures { result ≡ trr_of (w % 64) }
{
    match w % 64 {
        0o01 => control(ControlOp::Trr(Writable::Status)),
        0o03 => Instruction::Privileged(System::TrrPcr),
        0o05 => control(ControlOp::Trr(Writable::Iie)),
        0o06 => control(ControlOp::Trr(Writable::Pid)),
        0o07 => control(ControlOp::Trr(Writable::Pie)),
        _ => Instruction::Illegal,
    }
}

// MST of a register, or MCL.
fn masked(set: bool, r: Maskable) -> Instruction
    ensures { result ≡ control (cond set Mst Mcl r) }
{
    control(if set {
        ControlOp::Mst(r)
    } else {
        ControlOp::Mcl(r)
    })
}

// MST or MCL: the internal register whose bits are set or cleared.
#[tactic(auto, unfolding(isa::specs::Decode::by_code, isa::specs::Decode::masked_of))]
pub fn masked_of(set: bool, w: u16) -> Instruction
    ensures { result ≡ masked_of (cond set Mst Mcl) (w % 64) }
{
    match w % 64 {
        0o01 => masked(set, Maskable::Status),
        0o06 => masked(set, Maskable::Pid),
        0o07 => masked(set, Maskable::Pie),
        _ => Instruction::Illegal,
    }
}

// 150400 to 150477: the switches, SEX, REX, IOXT, EXAM and DEPO.
#[tactic(auto, unfolding(isa::specs::Decode::by_code, isa::specs::Decode::switch_of))]
pub fn switch_of(w: u16) -> Instruction
    ensures { result ≡ switch_of (w % 64) }
{
    match w % 64 {
        0o01 => control(ControlOp::Iof),
        0o02 => control(ControlOp::Ion),
        0o04 => control(ControlOp::Pof),
        0o05 => control(ControlOp::Piof),
        0o06 => control(ControlOp::Sex),
        0o07 => control(ControlOp::Rex),
        0o10 => control(ControlOp::Pon),
        0o12 => control(ControlOp::Pion),
        0o15 => Instruction::Privileged(System::Ioxt),
        0o16 => Instruction::Privileged(System::Exam),
        0o17 => Instruction::Privileged(System::Depo),
        _ => Instruction::Illegal,
    }
}

// An instruction by T and X, of a displacement.
fn physical(o: Transfer, w: u16) -> Instruction
    ensures { result ≡ Privileged (Physical o (w / 8 % 8)) }
{
    Instruction::Privileged(System::Physical(o, w / 8 % 8))
}

// LDATX to STDTX, by the low three bits.
#[tactic(auto, unfolding(isa::specs::Decode::by_code, isa::specs::Decode::transfer_of))]
pub fn transfer_of(w: u16) -> Instruction
    ensures { result ≡ transfer_of w }
{
    match w % 8 {
        0 => physical(Transfer::Ldatx, w),
        1 => physical(Transfer::Ldxtx, w),
        2 => physical(Transfer::Lddtx, w),
        3 => physical(Transfer::Ldbtx, w),
        4 => physical(Transfer::Statx, w),
        5 => physical(Transfer::Stztx, w),
        6 => physical(Transfer::Stdtx, w),
        _ => Instruction::Illegal,
    }
}

// SRB or LRB, by its low three bits.
pub fn block_of(low: u16, o: System, w: u16) -> Instruction
    ensures { result ≡ cond (w % 8 == low) (Privileged o) Illegal }
{
    if w % 8 == low {
        Instruction::Privileged(o)
    } else {
        Instruction::Illegal
    }
}

// IDENT, by its line.
pub fn ident(w: u16) -> Instruction
    ensures { result ≡ Privileged (Ident (w % 64)) }
{
    Instruction::Privileged(System::Ident(w % 64))
}

// IRW, by its level and register.
pub fn irw(w: u16) -> Instruction
    ensures { result ≡ Privileged (Irw (four_of w) (destination_of w)) }
{
    Instruction::Privileged(System::Irw(four_of(w), destination_of(w)))
}

// IRR, by its level and register.
pub fn irr(w: u16) -> Instruction
    ensures { result ≡ Privileged (Irr (four_of w) (destination_of w)) }
{
    Instruction::Privileged(System::Irr(four_of(w), destination_of(w)))
}

// IOX, by its device address.
pub fn iox(w: u16) -> Instruction
    ensures { result ≡ Privileged (Iox (w % 2048)) }
{
    Instruction::Privileged(System::Iox((w % 2048) as u64))
}
