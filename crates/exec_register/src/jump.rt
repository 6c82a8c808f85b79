// Conditional jumps.
ghost use Rattle.std.specs.Prelude.{◌≡◌};
ghost use Rattle.isa.specs.Instructions.{jump_if, jumped};

use arithmetic::signed::negative;
use isa::instruction::Condition;
use isa::machine::{File, Register};

fn jump_if(c: bool, a: u16, f: File) -> File
    ensures { result ≡ jump_if c a f }
{
    if c { f.with(Register::P, a) } else { f }
}

// By A or X; JPC and JNC count X first. The target is a.
pub fn jumped(o: Condition, a: u16, f: File) -> File
    ensures { result ≡ jumped o a f }
{
    let x = f.get(Register::X);
    let counted = x.wrapping_add(1);
    match o {
        Condition::Jap => jump_if(!negative(f.get(Register::A)), a, f),
        Condition::Jan => jump_if(negative(f.get(Register::A)), a, f),
        Condition::Jaz => jump_if(f.get(Register::A) == 0, a, f),
        Condition::Jaf => jump_if(f.get(Register::A) != 0, a, f),
        Condition::Jpc => jump_if(!negative(counted), a, f.with(Register::X, counted)),
        Condition::Jnc => jump_if(negative(counted), a, f.with(Register::X, counted)),
        Condition::Jxz => jump_if(x == 0, a, f),
        Condition::Jxn => jump_if(negative(x), a, f),
    }
}
