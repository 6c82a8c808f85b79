// Where a physical address is, of the instructions that go by one: among the page tables or in memory.
ghost use Rattle.std.specs.Prelude.{◌≡◌, IfOk};
ghost use Rattle.isa.specs.Physical.{physical_place};
ghost use Rattle.paging.specs.Within.{Within};

use crate::translation::{in_tables, physical, window_place, window_start};
use isa::access::{AccessKind, Fault, Place};
use isa::constant::WORD_RANGE;

// The first physical address that no address of 16 bits names.
const RANGE: usize = WORD_RANGE as usize;

// With so many words of memory; the page tables stand where the mode has them.
#[tactic(auto, using(crate::proofs::Laws::tables_within, crate::proofs::Laws::window_inside, crate::proofs::Laws::physical_within), unfolding(isa::specs::Physical::physical_place))]
pub fn physical_place(extended: bool, words: usize, k: AccessKind, p: usize) -> Result<Place, Fault>
    ensures value { result ≡ physical_place extended words k p }
    ensures within { IfOk result (Within words) }
{
    if p < RANGE && window_start(extended) as usize <= p {
        Ok(in_tables(k, window_place(extended, p)))
    } else {
        physical(words, k, p)
    }
}
