// Sums into a register.
ghost use Rattle.std.specs.Prelude.{◌≡◌};
ghost use Rattle.isa.specs.Machine.{flag_of};
ghost use Rattle.isa.specs.Flags.{adder};
ghost use Rattle.isa.specs.Instructions.{takes};

use arithmetic::adder::{add, with_sum};
use isa::machine::{File, Register};

// A register takes the sum of a, b and the carry in c, and STS its flags.
#[tactic(auto, unfolding(isa::specs::Flags::with_sum))]
pub fn takes(f: File, r: Register, a: u16, b: u16, c: bool) -> File
    ensures { result ≡ takes f r (adder a b (flag_of c)) }
{
    let s = add(a, b, c);
    let sts = with_sum(s, f.get(Register::Sts));
    f.with(Register::Sts, sts).with(r, s.value)
}
