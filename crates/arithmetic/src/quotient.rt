// Signed division of a double word by a word.
ghost use Rattle.std.specs.Prelude.{◌≡◌, ◌<◌};
ghost use Rattle.isa.specs.Flags.{quotient, remainder};
ghost use Rattle.arithmetic.specs.Results.{division_of};

use crate::signed::{double_signed, signed, word_of};
use crate::whole;

// The quotient and the remainder, in 16 bits.
#[derive(Clone, Copy)]
pub struct Division {
    pub quotient: u16,
    pub remainder: u16,
}

// As whole numbers: the quotient toward zero, the remainder with the dividend's sign.
#[derive(Clone, Copy)]
struct Whole {
    quotient: i64,
    remainder: i64,
}

fn signed_division(n: u32, d: u16) -> Whole
    requires { 0 < d }
    ensures quotient { result.quotient ≡ quotient n d }
    ensures remainder { result.remainder ≡ remainder n d }
{
    let x = i64::from(double_signed(n));
    let y = i64::from(signed(d));
    Whole {
        quotient: x / y,
        remainder: x % y,
    }
}

// None where the divisor is 0, or the quotient is beyond 16 bits signed.
#[tactic(auto, using(crate::proofs::Divisions::by_zero, crate::proofs::Divisions::fails, crate::proofs::Divisions::gives))]
pub fn divide(n: u32, d: u16) -> Option<Division>
    ensures { result ≡ division_of n d }
{
    if d == 0 {
        return None;
    }
    let r = signed_division(n, d);
    match i16::try_from(r.quotient) {
        Ok(q) => Some(Division {
            quotient: word_of(q),
            remainder: whole::word(r.remainder),
        }),
        Err(_) => None,
    }
}
