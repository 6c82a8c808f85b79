// The two floating forms of document 002, 32 and 48 bits, and both conversions (document 02, card 12). A value crosses
// only where it is kept exactly. Words in, words out: no machine is asked for, and nothing is required of the caller.
#![tactic(auto)]

ghost use Rattle.std.specs.Prelude.{◌≡◌, false};
ghost use Rattle.floating.specs.Forms.{FitsShort};
ghost use Rattle.floating.specs.Conversions.{to_long, to_short, long_numbers, short_numbers, long_told, short_told};
ghost use Rattle.floating.specs.Conversions.{lengthened, shortened, malformed_short, malformed_long};
ghost use Rattle.floating.specs.Conversions.{beyond_match, loses_bits};

use crate::form::{Fields, Long, Short};
use isa::answer::Refusal;

pub mod form;

// The exponent's bias in each form, and what a long exponent field is above the short one of the same value.
const SHORT_BIAS: u16 = 256;

const LONG_BIAS: u16 = 16384;

const BIAS_GAP: u16 = LONG_BIAS - SHORT_BIAS;

// The greatest exponent field of the short form.
const SHORT_EXPONENT_MOST: u16 = 511;

// The top bit of a mantissa of 32 bits, which the short form implies; and how many values its nine lowest bits have,
// which the short form has not.
const TOP_BIT: u32 = 2147483648;

const LOW_RANGE: u32 = 512;

// The long exponent fields that a short one matches: 16,129 to 16,639.
const MATCH_FIRST: u16 = BIAS_GAP + 1;

const MATCH_LAST: u16 = BIAS_GAP + SHORT_EXPONENT_MOST;

// The fields in the other form.
fn lengthen(f: Fields) -> Fields
    requires { FitsShort f }
    ensures { result ≡ lengthened f }
{
    Fields {
        sign: f.sign,
        exponent: f.exponent + BIAS_GAP,
        mantissa: TOP_BIT + f.mantissa * LOW_RANGE,
    }
}

#[tactic(auto, using(crate::proofs::Fields::match_bounds))]
fn shorten(f: Fields) -> Fields
    requires { beyond_match f ≡ false }
    ensures { result ≡ shortened f }
{
    Fields {
        sign: f.sign,
        exponent: f.exponent - BIAS_GAP,
        mantissa: f.mantissa % TOP_BIT / LOW_RANGE,
    }
}

// Refusal 15, of either form.
#[tactic(auto, unfolding(crate::specs::Conversions::malformed_short))]
fn malformed_short(f: Fields) -> bool
    ensures { result ≡ malformed_short f }
{
    f.exponent == 0
}

#[tactic(auto, unfolding(crate::specs::Conversions::malformed_long))]
fn malformed_long(f: Fields) -> bool
    ensures { result ≡ malformed_long f }
{
    f.mantissa / TOP_BIT % 2 == 0
}

// Refusal 16.
#[tactic(auto, unfolding(crate::specs::Conversions::beyond_match))]
fn beyond_match(f: Fields) -> bool
    ensures { result ≡ beyond_match f }
{
    f.exponent < MATCH_FIRST || MATCH_LAST < f.exponent
}

// Refusal 17.
#[tactic(auto, unfolding(crate::specs::Conversions::loses_bits))]
fn loses_bits(f: Fields) -> bool
    ensures { result ≡ loses_bits f }
{
    f.mantissa % LOW_RANGE != 0
}

// A short number as a long one. Refusal 15.
#[tactic(auto, unfolding(crate::specs::Conversions::to_long, crate::specs::Conversions::long_told))]
pub fn short_to_long(s: Short) -> Result<Long, Refusal>
    ensures value { result ≡ to_long s }
    ensures result_value { long_numbers result ≡ long_told s }
{
    if s.is_zero() {
        return Ok(Long { t: 0, a: 0, d: 0 });
    }
    let f = s.fields();
    if malformed_short(f) {
        return Err(Refusal::Malformed);
    }
    Ok(Long::of(lengthen(f)))
}

// A long number as a short one. Refusals 15, 16 and 17, in this order.
#[tactic(auto, using(crate::proofs::Fields::shortened_fits, crate::proofs::Fields::matched, crate::proofs::Fields::long_fits), unfolding(crate::specs::Conversions::to_short, crate::specs::Conversions::short_told))]
pub fn long_to_short(l: Long) -> Result<Short, Refusal>
    ensures value { result ≡ to_short l }
    ensures result_value { short_numbers result ≡ short_told l }
{
    if l.is_zero() {
        return Ok(Short { a: 0, d: 0 });
    }
    let f = l.fields();
    if malformed_long(f) {
        return Err(Refusal::Malformed);
    }
    if beyond_match(f) {
        return Err(Refusal::ExponentRange);
    }
    if loses_bits(f) {
        return Err(Refusal::Precision);
    }
    Ok(Short::of(shorten(f)))
}
