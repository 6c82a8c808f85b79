// Translation: the page-table window, the tests in order, the mark.
ghost use Rattle.isa.specs.Machine.{slot_count};
ghost use Rattle.std.specs.Prelude.{◌≡◌, cond, not, ◌%◌, ◌<◌, IfOk};
ghost use Rattle.isa.specs.Address.{access};
ghost use Rattle.isa.specs.Pages.{entry_of, entry_at, slot_of, some_permit, paging_status, in_memory, in_tables};
ghost use Rattle.isa.specs.Pages.{within_memory, judged, window_start, window_words, in_window, passes, with_mark};
ghost use Rattle.isa.specs.Pages.{marked, translate as translated};
ghost use Rattle.isa.specs.declared.access.Fault.TheVariants.{PageFault, Protection};
ghost use Rattle.paging.specs.Within.{Within};

use crate::entry::{first_word, mark, page_of, permitted, slot_of, some_permit, status};
use isa::access::{AccessKind, Fault, Place, Rights};
use isa::constant::{
    EXTENDED_WINDOW_START, EXTENDED_WINDOW_WORDS, PAGE_WORDS, WINDOW_START, WINDOW_WORDS,
};
use isa::machine::PageTables;

fn in_memory(k: AccessKind, p: usize) -> Place
    ensures { result ≡ in_memory k p }
{
    match k {
        AccessKind::Write => Place::Store(p),
        AccessKind::Fetch | AccessKind::Read | AccessKind::Indirect => Place::Load(p),
    }
}

pub(crate) fn in_tables(k: AccessKind, i: usize) -> Place
    ensures { result ≡ in_tables k i }
{
    match k {
        AccessKind::Write => Place::StoreTable(i),
        AccessKind::Fetch | AccessKind::Read | AccessKind::Indirect => Place::LoadTable(i),
    }
}

// The needed permit is missing: no permit at all is a page fault.
fn refused(e: u16, k: AccessKind, slot: u16) -> Fault
    requires { slot < slot_count }
    ensures { result ≡ cond (not (some_permit (entry_of e 0))) (PageFault (paging_status k 16384 slot))
        (Protection (paging_status k 16384 slot)) }
{
    if some_permit(e) {
        Fault::Protection(status(k, 16384, slot))
    } else {
        Fault::PageFault(status(k, 16384, slot))
    }
}

// The access by the entry at the slot, and its mark where it passes. An entry with the needed permit has some permit,
// so that is asked only where the needed one is missing.
fn looked_up(
    tables: &mut PageTables,
    words: usize,
    extended: bool,
    ring: u32,
    k: AccessKind,
    slot: u16,
    a: u16,
) -> Result<Place, Fault>
    requires slot_lt_slot_count { slot < slot_count }
    ensures value { result ≡ judged (entry_at extended tables.old slot) slot words ring k a }
    ensures tables_after { tables.new
        ≡ cond (passes result) (with_mark extended tables.old slot k) tables.old }
    ensures within { IfOk result (Within words) }
{
    let i = first_word(extended, slot);
    let e = tables[i];
    if !permitted(e, k) {
        return Err(refused(e, k, slot));
    }
    if (e / 512 % 4) as u32 > ring {
        return Err(Fault::Protection(status(k, 0, slot)));
    }
    let p = page_of(extended, tables, slot, e) * PAGE_WORDS + (a % 1024) as usize;
    if p >= words {
        return Err(Fault::OutOfRange);
    }
    tables[i] = mark(k, e);
    Ok(in_memory(k, p))
}

// The window's first address, by the mode.
pub(crate) fn window_start(extended: bool) -> u16
    ensures { result ≡ window_start extended }
{
    if extended {
        EXTENDED_WINDOW_START
    } else {
        WINDOW_START
    }
}

// The place in the tables of an address from there on.
pub(crate) fn window_place(extended: bool, a: usize) -> usize
    ensures { result ≡ a % window_words extended }
{
    if extended {
        a % EXTENDED_WINDOW_WORDS
    } else {
        a % WINDOW_WORDS
    }
}

#[tactic(auto, unfolding(isa::specs::Pages::in_window))]
fn in_window(r: Rights, a: u16) -> bool
    ensures { result ≡ in_window r a }
{
    window_start(r.extended) <= a && (!r.paging || r.ring == 3)
}

// An access by its physical address.
#[tactic(auto, using(crate::proofs::Laws::physical_within), unfolding(isa::specs::Pages::within_memory))]
pub fn physical(words: usize, k: AccessKind, p: usize) -> Result<Place, Fault>
    ensures value { result ≡ within_memory words k p }
    ensures within { IfOk result (Within words) }
{
    if p < words {
        Ok(in_memory(k, p))
    } else {
        Err(Fault::OutOfRange)
    }
}

// One access. With paging off the address is physical.
#[tactic(auto, using(crate::proofs::Laws::window_translated, crate::proofs::Laws::window_marked, crate::proofs::Laws::paged_translated, crate::proofs::Laws::paged_marked, crate::proofs::Laws::unpaged_translated, crate::proofs::Laws::unpaged_marked, crate::proofs::Laws::translate_within))]
#[inline(always)]
pub fn translate(
    tables: &mut PageTables,
    words: usize,
    r: Rights,
    k: AccessKind,
    alternate: bool,
    a: u16,
) -> Result<Place, Fault>
    requires normal_bound { (r.normal < 4) × (r.alternate < 4) }
    ensures value { result ≡ translated tables.old words r (access k alternate a) }
    ensures tables_after { tables.new ≡ marked tables.old words r (access k alternate a) }
    ensures within { IfOk result (Within words) }
{
    if in_window(r, a) {
        return Ok(in_tables(k, window_place(r.extended, a as usize)));
    }
    if r.paging {
        let slot = slot_of(r, alternate, a);
        return looked_up(tables, words, r.extended, r.ring, k, slot, a);
    }
    physical(words, k, a as usize)
}

// The ring of the entry of an address by the normal table.
pub fn ring_at(tables: &PageTables, r: Rights, a: u16) -> u16
    requires normal_bound { (r.normal < 4) × (r.alternate < 4) }
    ensures { result ≡ (entry_at r.extended tables.now (slot_of r.normal a)).ring }
{
    let i = first_word(r.extended, slot_of(r, false, a));
    let e = tables[i];
    e / 512 % 4
}
