// MIN and SBYT: a word is read, and another written in its place.
ghost use Rattle.std.specs.Prelude.{◌≡◌, ◌<◌, true};
ghost use Rattle.event.specs.Events.{tells_fault};
ghost use Rattle.exec_address.specs.declared.request.Request.TheVariants.{Update};
ghost use Rattle.exec_address.specs.declared.request.Change.TheVariants.{PutByte};
ghost use Rattle.exec_memory.specs.Served.{Served, after_exchange};

use event::{Ending, done, failed};
use exec_address::change::{after_change, changed};
use exec_address::request::Change;
use isa::access::AccessKind;
use isa::machine::{File, PageTables};
use memory_words::location::Location;
use memory_words::test::test_word;
use paging::failure::{Failure, nth};
use paging::place::{store_at, word_at};

// Both accesses are tested, and the changed word is stored: the word that was read.
fn exchange(
    f: File,
    mem: &mut [u16],
    tables: &mut PageTables,
    x: Location,
    k: Change,
) -> Result<u16, Failure>
    requires normal_bound { (x.rights.normal < 4) × (x.rights.alternate < 4) }
    ensures { Served f (Update k) x mem.old tables.old (after_exchange f k result)
        mem.new tables.new }
{
    let from = nth(test_word(tables, mem.len(), x, AccessKind::Read), 1)?;
    let to = nth(test_word(tables, mem.len(), x, AccessKind::Write), 2)?;
    let w = word_at(mem, tables, Some(from));
    store_at(mem, tables, Some(to), changed(k, f, w));
    Ok(w)
}

pub(crate) fn update(
    f: File,
    mem: &mut [u16],
    tables: &mut PageTables,
    x: Location,
    k: Change,
) -> Ending
    requires normal_bound { (x.rights.normal < 4) × (x.rights.alternate < 4) }
    ensures served { Served f (Update k) x mem.old tables.old result mem.new
        tables.new }
    ensures told { tells_fault result.event ≡ true }
{
    match exchange(f, mem, tables, x, k) {
        Ok(w) => done(after_change(k, f, w), 2),
        Err(e) => failed(f, Some(e.fault), e.made),
    }
}

// SBYT, which is not served as MIN is: as one function the run's loop takes 80 machine instructions a step more.
pub fn put_byte(f: File, mem: &mut [u16], tables: &mut PageTables, x: Location) -> Ending
    requires normal_bound { (x.rights.normal < 4) × (x.rights.alternate < 4) }
    ensures served { Served f (Update PutByte) x mem.old tables.old result mem.new
        tables.new }
    ensures told { tells_fault result.event ≡ true }
{
    match exchange(f, mem, tables, x, Change::PutByte) {
        Ok(_) => done(f, 2),
        Err(e) => failed(f, Some(e.fault), e.made),
    }
}
