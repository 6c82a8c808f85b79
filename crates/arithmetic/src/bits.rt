// Single bits of a word, bit 0 the lowest.
ghost use Rattle.std.specs.Prelude.{◌≡◌, ◌<◌};
ghost use Rattle.isa.specs.Machine.{bit, with_bit, flag_of};
ghost use Rattle.isa.specs.System.{highest_in};

// Bit n of w.
pub fn bit(n: u16, w: u16) -> bool
    requires { n < 16 }
    ensures { flag_of result ≡ bit n w }
{
    (w >> n) % 2 == 1
}

// w with bit n set to v.
pub fn with_bit(n: u16, v: bool, w: u16) -> u16
    requires { n < 16 }
    ensures { result ≡ with_bit n (flag_of v) w }
{
    w - (u16::from(bit(n, w)) << n) + (u16::from(v) << n)
}

// The highest bit of w that is set, among bits 15 to 1; 0 if none is.
#[tactic(auto, using(crate::proofs::Fields::highest_length))]
pub fn highest(w: u16) -> u16
    ensures value { result ≡ highest_in 15 w }
    ensures upper_bound { result < 16 }
{
    if w == 0 {
        0
    } else {
        (15 - w.leading_zeros()) as u16
    }
}
