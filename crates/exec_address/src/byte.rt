// LBYT and SBYT: the even X is the upper byte.
ghost use Rattle.std.specs.Prelude.{◌≡◌};
ghost use Rattle.isa.specs.Address.{byte_address};
ghost use Rattle.isa.specs.Instructions.{even_x, loaded_byte, stored_byte};
ghost use Rattle.exec_address.specs.Requests.{byte_loaded};

use isa::machine::{File, Register};

// Word T + X/2, X unsigned.
pub fn byte_address(f: File) -> u16
    ensures { result ≡ byte_address f }
{
    f.get(Register::T).wrapping_add(f.get(Register::X) / 2)
}

fn even_x(f: File) -> bool
    ensures { result ≡ even_x f }
{
    f.get(Register::X) % 2 == 0
}

// The byte of the word w.
fn loaded_byte(f: File, w: u16) -> u16
    ensures { result ≡ loaded_byte f w }
{
    if even_x(f) { w / 256 } else { w % 256 }
}

// LBYT: A takes the byte of the word w.
pub(crate) fn byte_loaded(f: File, w: u16) -> File
    ensures { result ≡ byte_loaded f w }
{
    f.with(Register::A, loaded_byte(f, w))
}

// SBYT: the word w with A's lower byte in it.
pub(crate) fn stored_byte(f: File, w: u16) -> u16
    ensures { result ≡ stored_byte f w }
{
    let b = f.get(Register::A) % 256;
    if even_x(f) {
        b * 256 + w % 256
    } else {
        w / 256 * 256 + b
    }
}
