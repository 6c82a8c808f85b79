// Argument instructions, MIX3, RMPY and RDIV.
ghost use Rattle.std.specs.Prelude.{◌≡◌};
ghost use Rattle.isa.specs.Machine.{reg, with_reg};
ghost use Rattle.isa.specs.Flags.{bits_of, adder};
ghost use Rattle.isa.specs.Instructions.{takes, argument_register, mixed, register_product, double_of, divided};
ghost use Rattle.event.specs.Events.{ending_of};
ghost use Rattle.exec_register.specs.Completion.{failing};

use crate::operand::operand;
use crate::sum::takes;
use arithmetic::bits::with_bit;
use arithmetic::product::multiply_double;
use arithmetic::quotient::divide;
use arithmetic::signed::word_of;
use event::{Ending, Event, fine, with_event};
use isa::constant::{ALL_ONES, FLAG_Z, WORD_RANGE};
use isa::instruction::Argument;
use isa::machine::{File, Register};

fn argument_register(r: Argument) -> Register
    ensures { result ≡ argument_register r }
{
    match r {
        Argument::ArgumentB => Register::B,
        Argument::ArgumentA => Register::A,
        Argument::ArgumentT => Register::T,
        Argument::ArgumentX => Register::X,
    }
}

// SAx.
pub fn set_argument(f: File, r: Argument, n: i16) -> File
    ensures { result ≡ with_reg f (argument_register r) (bits_of 16 n) }
{
    f.with(argument_register(r), word_of(n))
}

// AAx.
pub fn add_argument(f: File, r: Argument, n: i16) -> File
    ensures { result ≡ takes f (argument_register r) (adder (reg f (argument_register r)) (bits_of 16 n) 0) }
{
    let t = argument_register(r);
    takes(f, t, f.get(t), word_of(n), false)
}

// The word -1.
const MINUS_ONE: u32 = ALL_ONES as u32;

// MIX3: X is (A - 1) * 3.
pub fn mixed(f: File) -> File
    ensures { result ≡ mixed f }
{
    let x = (f.get(Register::A) as u32 + MINUS_ONE) * 3 % WORD_RANGE;
    f.with(Register::X, x as u16)
}

// RMPY: the product's 32 bits in A and D.
pub fn register_product(f: File, s: Register, d: Register) -> File
    ensures { result ≡ register_product f s d }
{
    if d == Register::Sts {
        f
    } else {
        let p = multiply_double(operand(f, s), operand(f, d));
        f.with(Register::A, (p / WORD_RANGE) as u16)
            .with(Register::D, (p % WORD_RANGE) as u16)
    }
}

// A and D as one double word.
pub fn double(f: File) -> u32
    ensures { result ≡ double_of f }
{
    f.get(Register::A) as u32 * WORD_RANGE + f.get(Register::D) as u32
}

// Z is set, and interrupt 5 is given.
fn division_fails(f: File) -> Ending
    ensures { result ≡ ending_of (failing f) }
{
    let sts = with_bit(FLAG_Z, true, f.get(Register::Sts));
    with_event(f.with(Register::Sts, sts), Some(Event::Error))
}

// RDIV by d.
#[tactic(auto, using(crate::proofs::Laws::division_fails_law, crate::proofs::Laws::division_gives))]
pub fn divided(f: File, d: u16) -> Ending
    ensures { result ≡ ending_of (divided f d) }
{
    match divide(double(f), d) {
        Some(q) => fine(
            f.with(Register::A, q.quotient)
                .with(Register::D, q.remainder),
        ),
        None => division_fails(f),
    }
}
