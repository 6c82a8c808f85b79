// The fields of an instruction word. Each is cut out and named at once: a From of its number would need a case for
// numbers that so many bits have not.
ghost use Rattle.std.specs.Prelude.{◌≡◌};
ghost use Rattle.isa.specs.Decode.{mode_of, register_of, destination_of, source_of, four_of, cld_of, cm1_of};
ghost use Rattle.isa.specs.Decode.{condition_of, argument_of, shiftable_of, kind_of, bit_op_of};

use isa::instruction::{Argument, BitOp, Condition, Mode, ShiftKind, Shiftable};
use isa::machine::Register;

// The address mode, bits 10-8.
#[tactic(auto, unfolding(isa::specs::Decode::by_number))]
pub fn mode_of(w: u16) -> Mode
    ensures { result ≡ mode_of w }
{
    match w / 256 % 8 {
        0 => Mode::PRelative,
        1 => Mode::BRelative,
        2 => Mode::PIndirect,
        3 => Mode::BIndirect,
        4 => Mode::XRelative,
        5 => Mode::BIndexed,
        6 => Mode::PIndirectIndexed,
        _ => Mode::BIndirectIndexed,
    }
}

// A register by its number.
#[tactic(auto, unfolding(isa::specs::Decode::by_number))]
pub fn register_of(n: u16) -> Register
    ensures { result ≡ register_of n }
{
    match n {
        0 => Register::Sts,
        1 => Register::D,
        2 => Register::P,
        3 => Register::B,
        4 => Register::L,
        5 => Register::A,
        6 => Register::T,
        _ => Register::X,
    }
}

// The destination, bits 2-0.
pub fn destination_of(w: u16) -> Register
    ensures { result ≡ destination_of w }
{
    register_of(w % 8)
}

// The source, bits 5-3.
pub fn source_of(w: u16) -> Register
    ensures { result ≡ source_of w }
{
    register_of(w / 8 % 8)
}

// A level, or a bit's number, bits 6-3.
pub fn four_of(w: u16) -> u16
    ensures { result ≡ four_of w }
{
    w / 8 % 16
}

// CLD, bit 6.
pub fn cld_of(w: u16) -> bool
    ensures { result ≡ cld_of w }
{
    w / 64 % 2 == 1
}

// CM1, bit 7.
pub fn cm1_of(w: u16) -> bool
    ensures { result ≡ cm1_of w }
{
    w / 128 % 2 == 1
}

// The condition of a jump, bits 10-8.
#[tactic(auto, unfolding(isa::specs::Decode::by_number))]
pub fn condition_of(w: u16) -> Condition
    ensures { result ≡ condition_of w }
{
    match w / 256 % 8 {
        0 => Condition::Jap,
        1 => Condition::Jan,
        2 => Condition::Jaz,
        3 => Condition::Jaf,
        4 => Condition::Jpc,
        5 => Condition::Jnc,
        6 => Condition::Jxz,
        _ => Condition::Jxn,
    }
}

// The register of an argument instruction, bits 9-8.
#[tactic(auto, unfolding(isa::specs::Decode::by_number))]
pub fn argument_of(w: u16) -> Argument
    ensures { result ≡ argument_of w }
{
    match w / 256 % 4 {
        0 => Argument::ArgumentB,
        1 => Argument::ArgumentA,
        2 => Argument::ArgumentT,
        _ => Argument::ArgumentX,
    }
}

// The register of a shift, bits 8-7.
#[tactic(auto, unfolding(isa::specs::Decode::by_number))]
pub fn shiftable_of(w: u16) -> Shiftable
    ensures { result ≡ shiftable_of w }
{
    match w / 128 % 4 {
        0 => Shiftable::Sht,
        1 => Shiftable::Shd,
        2 => Shiftable::Sha,
        _ => Shiftable::Sad,
    }
}

// The kind of a shift, bits 10-9.
#[tactic(auto, unfolding(isa::specs::Decode::by_number))]
pub fn kind_of(w: u16) -> ShiftKind
    ensures { result ≡ kind_of w }
{
    match w / 512 % 4 {
        0 => ShiftKind::Arithmetic,
        1 => ShiftKind::Rotational,
        2 => ShiftKind::ZeroInput,
        _ => ShiftKind::LinkInput,
    }
}

// The bit operation, bits 10-7.
#[tactic(auto, unfolding(isa::specs::Decode::by_number))]
pub fn bit_op_of(w: u16) -> BitOp
    ensures { result ≡ bit_op_of w }
{
    match w / 128 % 16 {
        0 => BitOp::SetZero,
        1 => BitOp::SetOne,
        2 => BitOp::SetComplement,
        3 => BitOp::SetK,
        4 => BitOp::SkipZero,
        5 => BitOp::SkipOne,
        6 => BitOp::SkipComplement,
        7 => BitOp::SkipK,
        8 => BitOp::Bstc,
        9 => BitOp::Bsta,
        10 => BitOp::Bldc,
        11 => BitOp::Blda,
        12 => BitOp::Banc,
        13 => BitOp::Band,
        14 => BitOp::Borc,
        _ => BitOp::Bora,
    }
}
