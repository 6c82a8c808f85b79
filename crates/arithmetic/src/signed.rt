// Signed numbers in 16 bits: a word's sign, the fields of an instruction word, words as numbers and back, and the
// comparisons of SKP.
ghost use Rattle.std.specs.Prelude.{◌≡◌};
ghost use Rattle.isa.specs.Flags.{signed_of, negative, bits_of, word_difference, compares};
ghost use Rattle.isa.specs.Decode.{displacement_of, count_of};

use crate::whole;
use isa::instruction::Relation;

// Whether a word's sign, bit 15, is 1.
pub fn negative(w: u16) -> bool
    ensures { result ≡ negative w }
{
    32768 <= w
}

// A word as a signed number.
pub fn signed(w: u16) -> i16
    ensures { result ≡ signed_of 16 w }
{
    w.cast_signed()
}

// A double word as a signed number.
pub fn double_signed(n: u32) -> i32
    ensures { result ≡ signed_of 32 n }
{
    n.cast_signed()
}

// The displacement in bits 7-0, -128 to 127.
pub fn displacement(w: u16) -> i16
    ensures { result ≡ displacement_of w }
{
    i16::from(((w % 256) as u8).cast_signed())
}

// The shift count in bits 5-0, -32 to 31.
pub fn count(w: u16) -> i16
    ensures { result ≡ count_of w }
{
    whole::signed(6, u32::from(w % 64)) as i16
}

// The word that holds a number in two's complement.
pub fn word_of(z: i16) -> u16
    ensures { result ≡ bits_of 16 z }
{
    z.cast_unsigned()
}

// d - s in 16 bits, whose sign GEQ tests.
fn difference(d: u16, s: u16) -> u16
    ensures { result ≡ word_difference d s }
{
    d.wrapping_sub(s)
}

// Whether the destination d stands in a relation to the source s.
pub fn compares(r: Relation, d: u16, s: u16) -> bool
    ensures { result ≡ compares r d s }
{
    match r {
        Relation::Eql => d == s,
        Relation::Geq => difference(d, s) < 32768,
        Relation::Gre => signed(s) <= signed(d),
        Relation::Mgre => s <= d,
        Relation::Ueq => d != s,
        Relation::Lss => 32768 <= difference(d, s),
        Relation::Lst => signed(d) < signed(s),
        Relation::Mlst => d < s,
    }
}
