// Bit instructions.
ghost use Rattle.std.specs.Prelude.{◌≡◌, ◌<◌, ◌&&◌, nat_le};
ghost use Rattle.isa.specs.Machine.{with_flag, flag_k, flag_of};
ghost use Rattle.isa.specs.Instructions.{is_zero, put_bit, bit_completion, bit_done};

use crate::skip::skip_if;
use arithmetic::bits::{bit, with_bit};
use isa::constant::FLAG_K;
use isa::instruction::BitOp;
use isa::machine::{File, Register};

// Whether bit n of the register is never written: bits 8 to 15 of STS.
fn is_fixed(r: Register, n: u16) -> bool
    ensures { result ≡ (is_zero r && nat_le 8 n) }
{
    r == Register::Sts && 8 <= n
}

fn put_bit(f: File, r: Register, n: u16, v: bool) -> File
    requires { n < 16 }
    ensures { result ≡ put_bit f r n (flag_of v) }
{
    if is_fixed(r, n) {
        f
    } else {
        f.with(r, with_bit(n, v, f.get(r)))
    }
}

fn put_k(f: File, k: bool) -> File
    ensures { result ≡ with_flag flag_k (flag_of k) f }
{
    f.with(Register::Sts, with_bit(FLAG_K, k, f.get(Register::Sts)))
}

// The bit takes v, then K takes k.
fn put_both(f: File, r: Register, n: u16, v: bool, k: bool) -> File
    requires { n < 16 }
    ensures { result ≡ with_flag flag_k (flag_of k) (put_bit f r n (flag_of v)) }
{
    put_k(put_bit(f, r, n, v), k)
}

// b is the bit, k the flag K.
fn bit_completion(o: BitOp, f: File, r: Register, n: u16, b: bool, k: bool) -> File
    requires { n < 16 }
    ensures { result ≡ bit_completion o f r n (flag_of b) (flag_of k) }
{
    match o {
        BitOp::SetZero => put_bit(f, r, n, false),
        BitOp::SetOne => put_bit(f, r, n, true),
        BitOp::SetComplement => put_bit(f, r, n, !b),
        BitOp::SetK => put_bit(f, r, n, k),
        BitOp::SkipZero => skip_if(!b, f),
        BitOp::SkipOne => skip_if(b, f),
        BitOp::SkipComplement => f,
        BitOp::SkipK => skip_if(b == k, f),
        BitOp::Bstc => put_both(f, r, n, !k, true),
        BitOp::Bsta => put_both(f, r, n, k, false),
        BitOp::Bldc => put_k(f, !b),
        BitOp::Blda => put_k(f, b),
        BitOp::Banc => put_k(f, !b && k),
        BitOp::Band => put_k(f, b && k),
        BitOp::Borc => put_k(f, !b || k),
        BitOp::Bora => put_k(f, b || k),
    }
}

// Bit n of the register r; its number has four bits.
pub fn bit_done(o: BitOp, f: File, n: u16, r: Register) -> File
    ensures { result ≡ bit_done o f n r }
{
    let m = n % 16;
    let k = bit(FLAG_K, f.get(Register::Sts));
    bit_completion(o, f, r, m, bit(m, f.get(r)), k)
}
