// MIN and SBYT: a word is read, and another written in its place.
ghost use Rattle.std.specs.Prelude.{◌≡◌, [], ◌∷◌};
ghost use Rattle.isa.specs.Address.{sum};
ghost use Rattle.exec_address.specs.Requests.{change_of};

use crate::byte::stored_byte;
use crate::request::Change;
use exec_register::skip::skip_if;
use isa::machine::File;

fn one_more(w: u16) -> u16
    ensures { result ≡ sum w 1 }
{
    w.wrapping_add(1)
}

// The word that is written for the word w.
pub fn changed(k: Change, f: File, w: u16) -> u16
    ensures { result ∷ [] ≡ (change_of k f w).stores }
{
    match k {
        Change::Increment => one_more(w),
        Change::PutByte => stored_byte(f, w),
    }
}

// MIN skips the next instruction if it wrote 0.
pub fn after_change(k: Change, f: File, w: u16) -> File
    ensures { result ≡ (change_of k f w).file }
{
    match k {
        Change::Increment => skip_if(one_more(w) == 0, f),
        Change::PutByte => f,
    }
}
