// LDD, LDF, STD and STF: two or three words, all tested before the first is taken.
ghost use Rattle.std.specs.Prelude.{◌≡◌, ◌<◌, ◌≤◌, true, length};
ghost use Rattle.event.specs.Events.{tells_fault};
ghost use Rattle.isa.specs.Pages.{test_all, words_at};
ghost use Rattle.exec_address.specs.declared.request.Request.TheVariants.{Several};
ghost use Rattle.isa.specs.declared.access.AccessKind.TheVariants.{Read};
ghost use Rattle.exec_memory.specs.Served.{Served, StoredWords, ReadWords};

use event::{Ending, done, failed};
use exec_address::load::loaded_more;
use exec_address::store::stored_more;
use isa::access::{AccessKind, Triple};
use isa::machine::{File, PageTables};
use memory_words::location::Location;
use memory_words::test::test_words;
use memory_words::words::{read_words, store_words};
use paging::failure::Failure;

// N words are stored.
fn store_several<const N: usize>(
    f: File,
    mem: &mut [u16],
    tables: &mut PageTables,
    x: Location,
    words: [u16; N],
) -> Ending
    requires normal_bound { (x.rights.normal < 4) × (x.rights.alternate < 4) }
    requires few { N ≤ 3 }
    ensures stored { StoredWords f x words.entry N mem.old tables.old result mem.new tables.new }
    ensures told { tells_fault result.event ≡ true }
{
    match test_words(tables, mem.len(), x, AccessKind::Write) {
        Ok(places) => {
            store_words(mem, tables, &places, &words);
            done(f, N as u32)
        }
        Err(e) => failed(f, Some(e.fault), e.made),
    }
}

// N words are read.
fn read_several<const N: usize>(
    mem: &[u16],
    tables: &mut PageTables,
    x: Location,
) -> Result<[u16; N], Failure>
    requires normal_bound { (x.rights.normal < 4) × (x.rights.alternate < 4) }
    requires few { N ≤ 3 }
    ensures { ReadWords x N mem.now tables.old result tables.new }
{
    let places = test_words(tables, mem.len(), x, AccessKind::Read)?;
    Ok(read_words(mem, tables, &places))
}

// Two words, or else three, are stored, or else read.
pub(crate) fn words(
    f: File,
    mem: &mut [u16],
    tables: &mut PageTables,
    x: Location,
    store: bool,
    n: u16,
) -> Ending
    requires normal_bound { (x.rights.normal < 4) × (x.rights.alternate < 4) }
    ensures served { Served f (Several store n) x mem.old tables.old result mem.new
        tables.new }
    ensures told { tells_fault result.event ≡ true }
{
    if store {
        let w = stored_more(n, f);
        return if n == 2 {
            store_several(f, mem, tables, x, [w.a, w.b])
        } else {
            store_several(f, mem, tables, x, [w.a, w.b, w.c])
        };
    }
    if n == 2 {
        return match read_several::<2>(mem, tables, x) {
            Ok(w) => done(
                loaded_more(
                    n,
                    f,
                    Triple {
                        a: w[0],
                        b: w[1],
                        c: 0,
                    },
                ),
                2,
            ),
            Err(e) => failed(f, Some(e.fault), e.made),
        };
    }
    match read_several::<3>(mem, tables, x) {
        Ok(w) => done(
            loaded_more(
                n,
                f,
                Triple {
                    a: w[0],
                    b: w[1],
                    c: w[2],
                },
            ),
            3,
        ),
        Err(e) => failed(f, Some(e.fault), e.made),
    }
}
