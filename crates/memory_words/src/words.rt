// Words read from the places of accesses, and stored to them.
ghost use Rattle.std.specs.Prelude.{◌≡◌, length};
ghost use Rattle.isa.specs.Pages.{words_at, store_all, lent};
ghost use Rattle.paging.specs.Within.{AllWithin};

use isa::access::Place;
use isa::machine::PageTables;
use paging::place::{is_store, store_at, word_at};

// The words at the places.
#[tactic(auto, using(std::proofs::lemmas::List::take_more_set))]
pub fn read_words<const N: usize>(mem: &[u16], tables: &PageTables, places: &[Place; N]) -> [u16; N]
    requires all_within { AllWithin (length mem.now) places.now }
    ensures { result ≡ words_at mem.now tables.now places.now }
{
    let mut words = [0; N];
    for (i, x) in places.iter().enumerate() {
        words[i] = word_at(mem, tables, Some(*x));
    }
    words
}

// The words are stored at the places to store to, in order.
pub fn store_words<const N: usize>(
    mem: &mut [u16],
    tables: &mut PageTables,
    places: &[Place; N],
    words: &[u16; N],
)
    requires all_within { AllWithin (length mem.old) places.now }
    ensures { lent mem.new tables.new
        ≡ store_all mem.old tables.old places.now words.now }
{
    let mut next = 0;
    for x in places.iter() {
        store_at(mem, tables, Some(*x), words[next]);
        if is_store(Some(*x)) {
            next += 1;
        }
    }
}
