// Shifts of a word and of a double word by single places, in one way for both widths.
ghost use Rattle.std.specs.Prelude.{◌≡◌, ◌<◌};
ghost use Rattle.isa.specs.Flags.{lower_input, upper_input, once, places_by, shift_by};
ghost use Rattle.arithmetic.specs.Results.{shifted_of, InWidth};

use isa::instruction::ShiftKind;

// The value shifted, and M: a number, 0 or 1, since a shift adds it to the value.
#[derive(Clone, Copy)]
pub struct Shifted {
    pub value: u32,
    pub m: u16,
}

// The bit that comes in at the lower end, where top leaves.
fn lower_input(k: ShiftKind, top: u16, m: u16) -> u16
    ensures { result ≡ lower_input k top m }
{
    match k {
        ShiftKind::Arithmetic | ShiftKind::ZeroInput => 0,
        ShiftKind::Rotational => top,
        ShiftKind::LinkInput => m,
    }
}

// The bit that comes in at the upper end, where low leaves.
fn upper_input(k: ShiftKind, top: u16, low: u16, m: u16) -> u16
    ensures { result ≡ upper_input k top low m }
{
    match k {
        ShiftKind::Arithmetic => top,
        ShiftKind::Rotational => low,
        ShiftKind::ZeroInput => 0,
        ShiftKind::LinkInput => m,
    }
}

// One place in w bits: to the left the top bit leaves, to the right the lowest.
#[tactic(auto, using(crate::proofs::Places::left_is, crate::proofs::Places::left_fits, crate::proofs::Places::right_is, crate::proofs::Places::right_fits))]
fn once(left: bool, w: u32, k: ShiftKind, s: Shifted) -> Shifted
    requires { InWidth w s }
    ensures { shifted_of result ≡ once left w k (shifted_of s) }
{
    let half = 1u32 << (w - 1);
    let top = (s.value / half) as u16;
    if left {
        let lower = lower_input(k, top, s.m);
        Shifted {
            value: s.value % half * 2 + u32::from(lower),
            m: top,
        }
    } else {
        let low = (s.value % 2) as u16;
        let upper = upper_input(k, top, low, s.m);
        Shifted {
            value: u32::from(upper) * half + s.value / 2,
            m: low,
        }
    }
}

// n places in one direction.
fn places_by(left: bool, w: u32, k: ShiftKind, start: Shifted, n: u32) -> Shifted
    requires { InWidth w start }
    ensures shifted { shifted_of result ≡ places_by left w k n (shifted_of start) }
    ensures width { InWidth w result }
{
    let mut s = start;
    for _i in 0..n {
        s = once(left, w, k, s);
    }
    s
}

// The lowest w bits, a word's or a double word's, by the count n: left by a positive count, right by a negative one.
pub fn shift_by(w: u32, k: ShiftKind, n: i16, s: Shifted) -> Shifted
    requires { InWidth w s }
    ensures shifted { shifted_of result ≡ shift_by w k n (shifted_of s) }
    ensures width { InWidth w result }
{
    places_by(0 <= n, w, k, s, u32::from(n.unsigned_abs()))
}
