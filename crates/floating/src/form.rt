// The forms' words and their fields.
ghost use Rattle.std.specs.Prelude.{◌≡◌};
ghost use Rattle.floating.specs.Forms.{is_zero_short, is_zero_long, short_fields, long_fields, short_of, long_of};
ghost use Rattle.floating.specs.Forms.{FitsShort, FitsLong};

use isa::constant::WORD_RANGE;

// A number of 32 bits, words A and D.
#[derive(Clone, Copy)]
pub struct Short {
    pub a: u16,
    pub d: u16,
}

// A number of 48 bits, words T, A and D.
#[derive(Clone, Copy)]
pub struct Long {
    pub t: u16,
    pub a: u16,
    pub d: u16,
}

// What the words of either form hold: the sign's bit, the exponent field, and the mantissa as it is stored.
#[derive(Clone, Copy)]
pub struct Fields {
    pub sign: u16,
    pub exponent: u16,
    pub mantissa: u32,
}

// Both forms have the same three methods, and no trait: no code takes either form.
impl Short {
    #[tactic(auto, unfolding(crate::specs::Forms::is_zero_short))]
    pub(crate) fn is_zero(self) -> bool
        ensures { result ≡ is_zero_short self }
    {
        self.a == 0 && self.d == 0
    }

    // The fields of words.
    pub(crate) fn fields(self) -> Fields
        ensures { result ≡ short_fields self }
    {
        Fields {
            sign: self.a / 0o100000 % 2,
            exponent: self.a / 0o100 % 0o1000,
            mantissa: u32::from(self.a % 0o100) * WORD_RANGE + u32::from(self.d),
        }
    }

    // The words of fields that fit the form.
    pub(crate) fn of(f: Fields) -> Short
        requires { FitsShort f }
        ensures { result ≡ short_of f }
    {
        Short {
            a: f.sign * 0o100000 + f.exponent * 0o100 + (f.mantissa / WORD_RANGE) as u16,
            d: (f.mantissa % WORD_RANGE) as u16,
        }
    }
}

impl Long {
    #[tactic(auto, unfolding(crate::specs::Forms::is_zero_long))]
    pub(crate) fn is_zero(self) -> bool
        ensures { result ≡ is_zero_long self }
    {
        self.t == 0 && self.a == 0 && self.d == 0
    }

    // The fields of words.
    pub(crate) fn fields(self) -> Fields
        ensures { result ≡ long_fields self }
    {
        Fields {
            sign: self.t / 0o100000 % 2,
            exponent: self.t % 0o100000,
            mantissa: u32::from(self.a) * WORD_RANGE + u32::from(self.d),
        }
    }

    // The words of fields that fit the form.
    pub(crate) fn of(f: Fields) -> Long
        requires { FitsLong f }
        ensures { result ≡ long_of f }
    {
        Long {
            t: f.sign * 0o100000 + f.exponent,
            a: (f.mantissa / WORD_RANGE) as u16,
            d: (f.mantissa % WORD_RANGE) as u16,
        }
    }
}
