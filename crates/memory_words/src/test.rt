// Words are tested in order, up to the first access that fails.
ghost use Rattle.std.specs.Prelude.{◌≡◌, ◌<◌, IfOk};
ghost use Rattle.isa.specs.Address.{access};
ghost use Rattle.isa.specs.Pages.{marked, test_all, translate as translated};
ghost use Rattle.paging.specs.Within.{Within, AllWithin};
ghost use Rattle.paging.specs.Outcome.{Outcome};
ghost use Rattle.memory_words.specs.Accesses.{words_from};

use crate::location::Location;
use isa::access::{AccessKind, Fault, Place};
use isa::machine::PageTables;
use paging::failure::{Failure, nth};
use paging::translation::translate;

// One word.
#[inline(always)]
pub fn test_word(
    tables: &mut PageTables,
    words: usize,
    x: Location,
    k: AccessKind,
) -> Result<Place, Fault>
    requires normal_bound { (x.rights.normal < 4) × (x.rights.alternate < 4) }
    ensures value { result ≡ translated tables.old words x.rights (access k x.alternate x.address) }
    ensures tables_after { tables.new ≡ marked tables.old words x.rights (access k x.alternate x.address) }
    ensures within { IfOk result (Within words) }
{
    translate(tables, words, x.rights, k, x.alternate, x.address)
}

// N words of one kind from an address on.
pub fn test_words<const N: usize>(
    tables: &mut PageTables,
    words: usize,
    x: Location,
    k: AccessKind,
) -> Result<[Place; N], Failure>
    requires normal_bound { (x.rights.normal < 4) × (x.rights.alternate < 4) }
    requires few { N < 65536 }
    ensures outcome { Outcome (test_all tables.old words x.rights (words_from k x.alternate x.address N)) result }
    ensures tables_after { tables.new
        ≡ (test_all tables.old words x.rights (words_from k x.alternate x.address N)).tables }
    ensures within { IfOk result (AllWithin words) }
{
    let mut places = [Place::Load(0); N];
    for (i, place) in places.iter_mut().enumerate() {
        let a = x.address.wrapping_add(i as u16);
        *place = nth(
            translate(tables, words, x.rights, k, x.alternate, a),
            i as u32 + 1,
        )?;
    }
    Ok(places)
}
