// Register operations: SKP, SWAP to RORA, and RADD.
ghost use Rattle.std.specs.Prelude.{◌≡◌, not, ◌&&◌};
ghost use Rattle.isa.specs.Machine.{flag_of};
ghost use Rattle.isa.specs.Flags.{adder, compares};
ghost use Rattle.isa.specs.Instructions.{is_zero, operand, with_result, destination_operand, source_operand, combined};
ghost use Rattle.isa.specs.Instructions.{carry_in, added, skip_if};
ghost use Rattle.isa.specs.declared.instruction.LogicOp.TheVariants.{Swap};

use crate::skip::skip_if;
use crate::sum::takes;
use arithmetic::adder::complement;
use arithmetic::bits::{bit, with_bit};
use arithmetic::signed::compares;
use isa::constant::FLAG_C;
use isa::instruction::{CarryIn, LogicOp, Relation};
use isa::machine::{File, Register};

// Operand 0 is the value 0.
pub fn operand(f: File, r: Register) -> u16
    ensures { result ≡ operand f r }
{
    if r == Register::Sts { 0 } else { f.get(r) }
}

// Destination 0 takes no result.
fn result(f: File, r: Register, v: u16) -> File
    ensures { result ≡ with_result f r v }
{
    if r == Register::Sts { f } else { f.with(r, v) }
}

// CLD: zero in place of the destination operand.
pub fn destination_operand(f: File, cld: bool, d: Register) -> u16
    ensures { result ≡ destination_operand f cld d }
{
    if cld { 0 } else { operand(f, d) }
}

// CM1: the complement of the source.
pub fn source_operand(f: File, cm1: bool, s: Register) -> u16
    ensures { result ≡ source_operand f cm1 s }
{
    let x = operand(f, s);
    if cm1 { complement(x) } else { x }
}

// SWAP: the destination takes x, then the source y.
fn swapped(f: File, x: u16, y: u16, s: Register, d: Register) -> File
    ensures { result ≡ combined Swap f x y s d }
{
    if d == Register::Sts {
        f
    } else {
        result(f.with(d, x), s, y)
    }
}

// x is the source operand, y the destination operand.
pub fn combined(o: LogicOp, f: File, x: u16, y: u16, s: Register, d: Register) -> File
    ensures { result ≡ combined o f x y s d }
{
    match o {
        LogicOp::Swap => swapped(f, x, y, s, d),
        LogicOp::Rand => result(f, d, y & x),
        LogicOp::Rexo => result(f, d, y ^ x),
        LogicOp::Rora => result(f, d, y | x),
    }
}

// AD1 adds one, ADC the carry flag.
pub fn carry_in(c: CarryIn, f: File) -> bool
    ensures { flag_of result ≡ carry_in c f }
{
    match c {
        CarryIn::NoCarry => false,
        CarryIn::One => true,
        CarryIn::Previous => bit(FLAG_C, f.get(Register::Sts)),
    }
}

// Destination 0: C is cleared, and nothing else changes.
pub fn added(f: File, d: Register, y: u16, x: u16, c: bool) -> File
    ensures { result ≡ added f d (adder y x (flag_of c)) }
{
    if d == Register::Sts {
        f.with(Register::Sts, with_bit(FLAG_C, false, f.get(Register::Sts)))
    } else {
        takes(f, d, y, x, c)
    }
}

// Destination 0 never skips.
pub fn skipped(f: File, r: Relation, s: Register, d: Register) -> File
    ensures { result ≡ skip_if (not (is_zero d) && compares r (operand f d) (operand f s)) f }
{
    skip_if(
        d != Register::Sts && compares(r, operand(f, d), operand(f, s)),
        f,
    )
}
