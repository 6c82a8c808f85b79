// STD and STF.
ghost use Rattle.std.specs.Prelude.{◌≡◌};
ghost use Rattle.exec_address.specs.Requests.{three_stored};
ghost use Rattle.isa.specs.Pages.{words_of};

use isa::access::Triple;
use isa::machine::{File, Register};

// STD's two words, followed by 0, or STF's three.
pub fn stored_more(n: u16, f: File) -> Triple
    ensures { words_of result ≡ three_stored n f }
{
    if n == 2 {
        return Triple {
            a: f.get(Register::A),
            b: f.get(Register::D),
            c: 0,
        };
    }
    Triple {
        a: f.get(Register::T),
        b: f.get(Register::A),
        c: f.get(Register::D),
    }
}
