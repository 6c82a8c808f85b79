// A block's words, those of a level's file, read from its places and stored to them.
ghost use Rattle.std.specs.Prelude.{◌≡◌, length};
ghost use Rattle.isa.specs.Pages.{words_at, store_all, lent};
ghost use Rattle.paging.specs.Within.{AllWithin};
ghost use Rattle.memory_words.specs.Accesses.{AllStoring};
ghost use Rattle.memory_words.specs.Blocks.{list_of};

use crate::words::{read_words, store_words};
use isa::access::Place;
use isa::machine::{File, PageTables, Register};

// The words at the places.
pub fn read_block(mem: &[u16], tables: &PageTables, places: &[Place; 8]) -> File
    requires all_within { AllWithin (length mem.now) places.now }
    ensures { list_of result ≡ words_at mem.now tables.now places.now }
{
    let [p, x, t, a, d, l, sts, b] = read_words(mem, tables, places);
    File {
        p,
        x,
        t,
        a,
        d,
        l,
        sts,
        b,
    }
}

// The words are stored at the places.
pub fn store_block(mem: &mut [u16], tables: &mut PageTables, places: &[Place; 8], f: File)
    requires all_within { AllWithin (length mem.old) places.now }
    requires all_storing { AllStoring places.now }
    ensures { lent mem.new tables.new
        ≡ store_all mem.old tables.old places.now (list_of f) }
{
    let words = [
        f.get(Register::P),
        f.get(Register::X),
        f.get(Register::T),
        f.get(Register::A),
        f.get(Register::D),
        f.get(Register::L),
        f.get(Register::Sts),
        f.get(Register::B),
    ];
    store_words(mem, tables, places, &words);
}
