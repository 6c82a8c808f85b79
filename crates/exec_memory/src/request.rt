// An instruction's request at its effective address: the accesses, what is made of the words read, and the words
// stored.
ghost use Rattle.std.specs.Prelude.{◌≡◌, ◌<◌, true};
ghost use Rattle.event.specs.Events.{tells_fault};
ghost use Rattle.exec_memory.specs.Served.{Served};

use crate::several::words;
use crate::single::{read_word, write_word};
use crate::update::update;
use event::{Ending, fine};
use exec_address::request::Request;
use isa::machine::{File, PageTables, Register};
use memory_words::location::Location;

pub fn serve(f: File, mem: &mut [u16], tables: &mut PageTables, x: Location, q: Request) -> Ending
    requires normal_bound { (x.rights.normal < 4) × (x.rights.alternate < 4) }
    ensures served { Served f q x mem.old tables.old result mem.new tables.new }
    ensures told { tells_fault result.event ≡ true }
{
    match q {
        Request::Jump => fine(f.with(Register::P, x.address)),
        Request::Link => fine(
            f.with(Register::L, f.get(Register::P))
                .with(Register::P, x.address),
        ),
        Request::Read(k) => read_word(f, mem, tables, x, k),
        Request::Write(w) => write_word(f, mem, tables, x, w),
        Request::Several(store, n) => words(f, mem, tables, x, store, n),
        Request::Update(k) => update(f, mem, tables, x, k),
    }
}
