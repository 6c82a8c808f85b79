// Signed products of words.
ghost use Rattle.std.specs.Prelude.{◌≡◌};
ghost use Rattle.isa.specs.Flags.{bits_of, product, product_overflow};

use crate::signed::signed;
use crate::whole;

// A product's low 16 bits, and 1 where its absolute value exceeds 32,767: the flag that `adder::with_overflow` takes.
#[derive(Clone, Copy)]
pub struct Product {
    pub value: u16,
    pub overflow: u16,
}

fn signed_product(a: u16, b: u16) -> i64
    ensures { result ≡ product a b }
{
    i64::from(signed(a)) * i64::from(signed(b))
}

#[tactic(auto, unfolding(isa::specs::Flags::product_overflow))]
pub fn multiply(a: u16, b: u16) -> Product
    ensures value { result.value ≡ bits_of 16 (product a b) }
    ensures overflow { result.overflow ≡ product_overflow a b }
{
    let z = signed_product(a, b);
    Product {
        value: whole::word(z),
        overflow: u16::from(32767 < z.unsigned_abs()),
    }
}

// The product's 32 bits.
pub fn multiply_double(a: u16, b: u16) -> u32
    ensures { result ≡ bits_of 32 (product a b) }
{
    whole::double_word(signed_product(a, b))
}
