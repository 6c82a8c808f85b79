// Shifts.
ghost use Rattle.std.specs.Prelude.{◌≡◌};
ghost use Rattle.isa.specs.Instructions.{shift_in, shift_double, shifted};
ghost use Rattle.exec_register.specs.Completion.{shift_register};

use crate::calculation::double;
use arithmetic::bits::{bit, with_bit};
use arithmetic::shift::{Shifted, shift_by};
use isa::constant::{DOUBLE_BITS, FLAG_M, WORD_BITS, WORD_RANGE};
use isa::instruction::{ShiftKind, Shiftable};
use isa::machine::{File, Register};

// One register.
fn shift_in(f: File, r: Register, k: ShiftKind, n: i16) -> File
    ensures { result ≡ shift_in f r k n }
{
    let sts = f.get(Register::Sts);
    let value = u32::from(f.get(r));
    let m = u16::from(bit(FLAG_M, sts));
    let s = shift_by(WORD_BITS, k, n, Shifted { value, m });
    f.with(Register::Sts, with_bit(FLAG_M, s.m == 1, sts))
        .with(r, s.value as u16)
}

// A and D as one double word.
fn shift_double(f: File, k: ShiftKind, n: i16) -> File
    ensures { result ≡ shift_double f k n }
{
    let sts = f.get(Register::Sts);
    let value = double(f);
    let m = u16::from(bit(FLAG_M, sts));
    let s = shift_by(DOUBLE_BITS, k, n, Shifted { value, m });
    f.with(Register::Sts, with_bit(FLAG_M, s.m == 1, sts))
        .with(Register::A, (s.value / WORD_RANGE) as u16)
        .with(Register::D, (s.value % WORD_RANGE) as u16)
}

// The register of a shift of one word; STS stands for A and D.
fn shift_register(t: Shiftable) -> Register
    ensures { result ≡ shift_register t }
{
    match t {
        Shiftable::Sht => Register::T,
        Shiftable::Shd => Register::D,
        Shiftable::Sha => Register::A,
        Shiftable::Sad => Register::Sts,
    }
}

// One place calls shift_in, so that it is compiled into it.
pub fn shifted(f: File, t: Shiftable, k: ShiftKind, n: i16) -> File
    ensures { result ≡ shifted f t k n }
{
    let r = shift_register(t);
    if r == Register::Sts {
        shift_double(f, k, n)
    } else {
        shift_in(f, r, k, n)
    }
}
