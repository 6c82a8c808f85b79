// The indirect word: whether there is one, the rule that its access goes by, and the effective address by it.
ghost use Rattle.std.specs.Prelude.{◌≡◌};
ghost use Rattle.isa.specs.Address.{first_rule};
ghost use Rattle.exec_address.specs.Addresses.{has_indirect, after_indirect};

use isa::instruction::Mode;
use isa::machine::{File, Register};

// Whether the mode has an indirect word.
pub fn has_indirect(m: Mode) -> bool
    ensures { result ≡ has_indirect m }
{
    matches!(
        m,
        Mode::PIndirect | Mode::BIndirect | Mode::PIndirectIndexed | Mode::BIndirectIndexed
    )
}

// Whether the alternate rule holds for the address of the indirect word.
pub fn first_rule(m: Mode) -> bool
    ensures { result ≡ first_rule m }
{
    !matches!(
        m,
        Mode::PRelative | Mode::PIndirect | Mode::PIndirectIndexed
    )
}

// The effective address by the indirect word i.
pub fn after_indirect(m: Mode, f: File, i: u16) -> u16
    ensures { result ≡ after_indirect m f i }
{
    match m {
        Mode::PIndirectIndexed | Mode::BIndirectIndexed => i.wrapping_add(f.get(Register::X)),
        _ => i,
    }
}
