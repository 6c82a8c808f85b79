// One word is read or written.
ghost use Rattle.std.specs.Prelude.{◌≡◌, ◌<◌, true};
ghost use Rattle.event.specs.Events.{tells_fault};
ghost use Rattle.exec_address.specs.declared.request.Request.TheVariants.{Read, Write};
ghost use Rattle.exec_memory.specs.Served.{Served};

use event::{Ending, done, failed};
use exec_address::load::loaded;
use exec_address::request::Reading;
use isa::access::AccessKind;
use isa::machine::{File, PageTables};
use memory_words::location::Location;
use memory_words::test::test_word;
use paging::place::{store_at, word_at};

pub fn read_word(f: File, mem: &[u16], tables: &mut PageTables, x: Location, k: Reading) -> Ending
    requires normal_bound { (x.rights.normal < 4) × (x.rights.alternate < 4) }
    ensures served { Served f (Read k) x mem.now tables.old result mem.now
        tables.new }
    ensures told { tells_fault result.event ≡ true }
{
    match test_word(tables, mem.len(), x, AccessKind::Read) {
        Ok(p) => done(loaded(k, f, word_at(mem, tables, Some(p))), 1),
        Err(e) => failed(f, Some(e), 1),
    }
}

pub(crate) fn write_word(
    f: File,
    mem: &mut [u16],
    tables: &mut PageTables,
    x: Location,
    w: u16,
) -> Ending
    requires normal_bound { (x.rights.normal < 4) × (x.rights.alternate < 4) }
    ensures served { Served f (Write w) x mem.old tables.old result mem.new
        tables.new }
    ensures told { tells_fault result.event ≡ true }
{
    match test_word(tables, mem.len(), x, AccessKind::Write) {
        Ok(p) => {
            store_at(mem, tables, Some(p), w);
            done(f, 1)
        }
        Err(e) => failed(f, Some(e), 1),
    }
}
