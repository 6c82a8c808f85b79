// The adder and the flags O, Q and C that it sets.
ghost use Rattle.std.specs.Prelude.{◌≡◌, ◌<◌};
ghost use Rattle.isa.specs.Machine.{flag_of};
ghost use Rattle.isa.specs.Flags.{adder, with_overflow, with_sum, complement};
ghost use Rattle.isa.specs.Signs.{sign_if, carry_by_signs, overflow_by_signs};

use crate::bits;
use crate::signed::negative;
use isa::constant::{FLAG_C, FLAG_O, FLAG_Q};

// A sum's low 16 bits, the carry out of bit 15, and the signed overflow: both as flags, which are numbers since
// `with_sum` and `with_overflow` answer for any.
#[derive(Clone, Copy)]
pub struct Sum {
    pub value: u16,
    pub carry: u16,
    pub overflow: u16,
}

// The sum with the low 16 bits value, by the signs of its operands, a and b, and of value, r; true is negative.
// Signs equal: C is that sign, and O tells whether the result's is the other one. Signs different: C is 1 if the result
// is not negative, and O is 0.
fn by_signs(value: u16, a: bool, b: bool, r: bool) -> Sum
    ensures value { result.value ≡ value }
    ensures carry { result.carry ≡ carry_by_signs (sign_if a) (sign_if b) (sign_if r) }
    ensures overflow { result.overflow ≡ overflow_by_signs (sign_if a) (sign_if b) (sign_if r) }
{
    Sum {
        value,
        carry: u16::from(if a == b { a } else { !r }),
        overflow: u16::from(a == b && r != a),
    }
}

// a + b with the carry in c.
pub fn add(a: u16, b: u16, c: bool) -> Sum
    ensures value { result.value ≡ (adder a b (flag_of c)).value }
    ensures carry { result.carry ≡ (adder a b (flag_of c)).carry }
    ensures overflow { result.overflow ≡ (adder a b (flag_of c)).overflow }
    ensures carry_bit { result.carry < 2 }
{
    let half = a.wrapping_add(b);
    let value = half.wrapping_add(u16::from(c));
    by_signs(value, negative(a), negative(b), negative(value))
}

// STS after an operation with the overflow o: overflow sets O and Q, without it O is 0 and Q stays.
#[tactic(auto, unfolding(isa::specs::Flags::with_overflow))]
pub fn with_overflow(o: u16, sts: u16) -> u16
    ensures { result ≡ with_overflow o sts }
{
    if o == 1 {
        bits::with_bit(FLAG_O, true, bits::with_bit(FLAG_Q, true, sts))
    } else {
        bits::with_bit(FLAG_O, false, sts)
    }
}

// STS after an addition.
#[tactic(auto, unfolding(isa::specs::Flags::with_sum))]
pub fn with_sum(s: Sum, sts: u16) -> u16
    requires { s.carry < 2 }
    ensures { result ≡ with_sum (record { value = s.value; carry = s.carry; overflow = s.overflow }) sts }
{
    bits::with_bit(FLAG_C, s.carry == 1, with_overflow(s.overflow, sts))
}

// The complement of a word.
pub fn complement(w: u16) -> u16
    ensures { result ≡ complement w }
{
    !w
}
