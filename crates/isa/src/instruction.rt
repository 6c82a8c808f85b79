// A decoded instruction.
use crate::machine::Register;

// The eight address modes, from bits 10 (X), 9 (I) and 8 (B).
#[derive(Clone, Copy)]
pub enum Mode {
    PRelative,
    BRelative,
    PIndirect,
    BIndirect,
    XRelative,
    BIndexed,
    PIndirectIndexed,
    BIndirectIndexed,
}

// The nineteen memory operations.
#[derive(Clone, Copy)]
pub enum MemoryOp {
    Stz,
    Sta,
    Stt,
    Stx,
    Std,
    Ldd,
    Stf,
    Ldf,
    Min,
    Lda,
    Ldt,
    Ldx,
    Add,
    Sub,
    And,
    Ora,
    Mpy,
    Jmp,
    Jpl,
}

// The conditional jumps.
#[derive(Clone, Copy)]
pub enum Condition {
    Jap,
    Jan,
    Jaz,
    Jaf,
    Jpc,
    Jnc,
    Jxz,
    Jxn,
}

// What a skip tests of its destination against its source.
#[derive(Clone, Copy)]
pub enum Relation {
    Eql,
    Geq,
    Gre,
    Mgre,
    Ueq,
    Lss,
    Lst,
    Mlst,
}

// The register operations that do not add.
#[derive(Clone, Copy)]
pub enum LogicOp {
    Swap,
    Rand,
    Rexo,
    Rora,
}

// What an adding register operation adds beside its operands: nothing, one (AD1), or the carry flag (ADC).
#[derive(Clone, Copy)]
pub enum CarryIn {
    NoCarry,
    One,
    Previous,
}

// The kinds of shift.
#[derive(Clone, Copy)]
pub enum ShiftKind {
    Arithmetic,
    Rotational,
    ZeroInput,
    LinkInput,
}

// What is shifted: T, D, A, or A and D as one double word.
#[derive(Clone, Copy)]
pub enum Shiftable {
    Sht,
    Shd,
    Sha,
    Sad,
}

// The registers of the argument instructions: B, A, T and X.
#[derive(Clone, Copy)]
pub enum Argument {
    ArgumentB,
    ArgumentA,
    ArgumentT,
    ArgumentX,
}

// The bit instructions, in the order of bits 10-7.
#[derive(Clone, Copy)]
pub enum BitOp {
    SetZero,
    SetOne,
    SetComplement,
    SetK,
    SkipZero,
    SkipOne,
    SkipComplement,
    SkipK,
    Bstc,
    Bsta,
    Bldc,
    Blda,
    Banc,
    Band,
    Borc,
    Bora,
}

// The unprivileged instructions, but for EXR and MON. Two registers stand as source, destination; two bools as CLD,
// CM1.
#[derive(Clone, Copy)]
pub enum User {
    Memory(MemoryOp, Mode, i16),
    Jump(Condition, i16),
    Skip(Relation, Register, Register),
    Logic(LogicOp, bool, bool, Register, Register),
    RegisterAdd(CarryIn, bool, bool, Register, Register),
    NoOperation,
    Shift(Shiftable, ShiftKind, i16),
    SetArgument(Argument, i16),
    AddArgument(Argument, i16),
    Bit(BitOp, u16, Register),
    LoadByte,
    StoreByte,
    Mix3,
    Multiply(Register, Register),
    Divide(Register),
}

// The internal registers that TRA reads, but for PGC.
#[derive(Clone, Copy)]
pub enum Readable {
    Status,
    Pgs,
    Pvl,
    Iic,
    Pid,
    Pie,
    Actl,
}

// The internal registers that TRR writes, but for PCR.
#[derive(Clone, Copy)]
pub enum Writable {
    Status,
    Iie,
    Pid,
    Pie,
}

// The internal registers that MCL and MST reach.
#[derive(Clone, Copy)]
pub enum Maskable {
    Status,
    Pid,
    Pie,
}

// The privileged instructions that act on the running level and the control words alone.
#[derive(Clone, Copy)]
pub enum ControlOp {
    Ion,
    Iof,
    Pon,
    Pof,
    Pion,
    Piof,
    Sex,
    Rex,
    Wait,
    Tra(Readable),
    Trr(Writable),
    Mcl(Maskable),
    Mst(Maskable),
}

// The seven instructions that reach physical memory by T and X.
#[derive(Clone, Copy)]
pub enum Transfer {
    Ldatx,
    Ldxtx,
    Lddtx,
    Ldbtx,
    Statx,
    Stztx,
    Stdtx,
}

// The privileged instructions. A number is a level, of four bits, a displacement, or a device's address or line. IOX's
// address has eleven bits in document 002. The 64 bits are the compiler's choice, not the document's: with them what an
// instruction holds starts at byte 8, which is faster (docs/BENCHMARK.md). No definition depends on the width: the
// decoder gives the low eleven bits of the word, and a register is found by all bits of the number.
#[derive(Clone, Copy)]
pub enum System {
    Control(ControlOp),
    TraPgc,
    TrrPcr,
    Irr(u16, Register),
    Irw(u16, Register),
    Srb(u16),
    Lrb(u16),
    Exam,
    Depo,
    Physical(Transfer, u16),
    Iox(u64),
    Ioxt,
    Ident(u16),
}

// An instruction: EXR with its source, MON with its number.
// Illegal is among them, and no None: it is executed as the others are, and gives interrupt 4.
#[derive(Clone, Copy)]
pub enum Instruction {
    Unprivileged(User),
    Privileged(System),
    Execute(Register),
    Monitor(i16),
    Illegal,
}
