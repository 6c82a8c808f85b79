// Operations that read.
ghost use Rattle.std.specs.Prelude.{◌≡◌};
ghost use Rattle.isa.specs.Instructions.{multiplied};
ghost use Rattle.isa.specs.Pages.{words_of};
ghost use Rattle.exec_address.specs.Requests.{loaded_by, words_loaded};

use crate::byte::byte_loaded;
use crate::request::Reading;
use arithmetic::adder::{complement, with_overflow};
use arithmetic::product::multiply;
use exec_register::sum::takes;
use isa::access::Triple;
use isa::machine::{File, Register};

// MPY: A takes the product's low 16 bits, and STS O and Q.
fn multiplied(f: File, w: u16) -> File
    ensures { result ≡ multiplied f w }
{
    let p = multiply(f.get(Register::A), w);
    let sts = with_overflow(p.overflow, f.get(Register::Sts));
    f.with(Register::Sts, sts).with(Register::A, p.value)
}

// What is made of the word w.
pub fn loaded(k: Reading, f: File, w: u16) -> File
    ensures { result ≡ loaded_by k f w }
{
    let a = f.get(Register::A);
    match k {
        Reading::LoadA => f.with(Register::A, w),
        Reading::LoadT => f.with(Register::T, w),
        Reading::LoadX => f.with(Register::X, w),
        Reading::Add => takes(f, Register::A, a, w, false),
        Reading::Subtract => takes(f, Register::A, a, complement(w), true),
        Reading::And => f.with(Register::A, a & w),
        Reading::Or => f.with(Register::A, a | w),
        Reading::Multiply => multiplied(f, w),
        Reading::Byte => byte_loaded(f, w),
    }
}

// LDD by two words: A and D take them. LDF by three: T, A and D.
pub fn loaded_more(n: u16, f: File, w: Triple) -> File
    ensures { result ≡ words_loaded n f (words_of w) }
{
    if n == 2 {
        return f.with(Register::A, w.a).with(Register::D, w.b);
    }
    f.with(Register::T, w.a)
        .with(Register::A, w.b)
        .with(Register::D, w.c)
}
