// Effective addresses, and the rule that their accesses go by.
ghost use Rattle.std.specs.Prelude.{◌≡◌};
ghost use Rattle.isa.specs.Address.{address_rule};
ghost use Rattle.exec_address.specs.Addresses.{base_at, first_at};

use arithmetic::signed::word_of;
use isa::instruction::Mode;
use isa::machine::{File, Register};

// What the displacement is added to; `at` is the instruction's own address.
fn base(m: Mode, f: File, at: u16) -> u16
    ensures { result ≡ base_at m f at }
{
    match m {
        Mode::PRelative | Mode::PIndirect | Mode::PIndirectIndexed => at,
        Mode::BRelative | Mode::BIndirect | Mode::BIndirectIndexed => f.get(Register::B),
        Mode::XRelative => f.get(Register::X),
        Mode::BIndexed => f.get(Register::B).wrapping_add(f.get(Register::X)),
    }
}

// Base and displacement: the effective address, or where the indirect word stands.
#[tactic(auto, unfolding(crate::specs::Addresses::first_at))]
pub fn first_address(m: Mode, d: i16, f: File, at: u16) -> u16
    ensures { result ≡ first_at m d f at }
{
    base(m, f, at).wrapping_add(word_of(d))
}

// Whether the alternate rule holds for the effective address.
pub fn address_rule(m: Mode) -> bool
    ensures { result ≡ address_rule m }
{
    !matches!(m, Mode::PRelative)
}
