// What an access gives, by its fault, if it failed; and the word at its place, if it passed.
ghost use Rattle.std.specs.Prelude.{◌≡◌, length};
ghost use Rattle.isa.specs.Pages.{fault_number, fault_of, pgs_after, first_status, held_after, lent};
ghost use Rattle.paging.specs.Within.{WithinIfAny, stores, word_read, word_stored};

use isa::access::{Fault, Place};
use isa::constant::{INTERRUPT_OUT_OF_RANGE, INTERRUPT_PAGE_FAULT, INTERRUPT_PROTECTION};
use isa::machine::PageTables;

// The interrupt that a failed access gives.
// No From: the number is that of the interrupt, and says less than the fault.
pub fn fault_number(f: Fault) -> u16
    ensures { result ≡ fault_number f }
{
    match f {
        Fault::Protection(_) => INTERRUPT_PROTECTION,
        Fault::PageFault(_) => INTERRUPT_PAGE_FAULT,
        Fault::OutOfRange => INTERRUPT_OUT_OF_RANGE,
    }
}

// The interrupt that an access gives, 0 where it passed.
pub fn fault_of(x: Option<Fault>) -> u16
    ensures { result ≡ fault_of x }
{
    match x {
        Some(f) => fault_number(f),
        None => 0,
    }
}

// PGS after an access, where it is not held.
pub fn pgs_after(old: u16, x: Option<Fault>) -> u16
    ensures { result ≡ pgs_after old x }
{
    match x {
        Some(Fault::Protection(g) | Fault::PageFault(g)) => g,
        Some(Fault::OutOfRange) | None => old,
    }
}

// PGS after a fault of status g: a held one stays.
pub fn first_status(held: u16, old: u16, g: u16) -> u16
    ensures { result ≡ first_status held old g }
{
    if held == 1 { old } else { g }
}

// Whether PGS is held after an access: from the first 2 or 3 on.
pub fn held_after(held: u16, x: Option<Fault>) -> u16
    ensures { result ≡ held_after held x }
{
    match x {
        Some(Fault::Protection(_) | Fault::PageFault(_)) => 1,
        Some(Fault::OutOfRange) | None => held,
    }
}

// The word at a place, 0 where there is none or it is not one to load from.
pub fn word_at(mem: &[u16], tables: &PageTables, x: Option<Place>) -> u16
    requires within { WithinIfAny (length mem.now) x }
    ensures { result ≡ word_read mem.now tables.now x }
{
    match x {
        Some(Place::Load(p)) => mem[p],
        Some(Place::LoadTable(i)) => tables[i],
        Some(Place::Store(_) | Place::StoreTable(_)) | None => 0,
    }
}

// The word is stored at a place to store to; nothing at any other, or where there is none.
pub fn store_at(mem: &mut [u16], tables: &mut PageTables, x: Option<Place>, w: u16)
    requires within { WithinIfAny (length mem.old) x }
    ensures { lent mem.new tables.new
        ≡ word_stored mem.old tables.old x w }
{
    match x {
        Some(Place::Store(p)) => mem[p] = w,
        Some(Place::StoreTable(i)) => tables[i] = w,
        Some(Place::Load(_) | Place::LoadTable(_)) | None => {}
    }
}

// Whether a place is one to store to.
pub fn is_store(x: Option<Place>) -> bool
    ensures { result ≡ stores x }
{
    matches!(x, Some(Place::Store(_) | Place::StoreTable(_)))
}
