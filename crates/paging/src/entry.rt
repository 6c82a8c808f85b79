// A page table's entry: where it stands, its permits, its marks, and the status that names it.
ghost use Rattle.std.specs.Prelude.{◌≡◌, ℕ, ◌<◌, get_or};
ghost use Rattle.isa.specs.Machine.{table_words, slot_count};
ghost use Rattle.isa.specs.Pages.{entry_of, entry_at, first_word, needed, some_permit, paging_status, mark_of, slot_of};
ghost use Rattle.isa.specs.Pages.{table_of};

use isa::access::{AccessKind, Rights};
use isa::machine::PageTables;

// Where the first word of the entry at a slot stands: permits, marks and ring.
// The mode decides the form of an entry, here and in page_of: one condition each, as in the definitions.
pub fn first_word(extended: bool, slot: u16) -> usize
    requires { slot < slot_count }
    ensures value { result ≡ first_word extended slot }
    ensures upper_bound { result < table_words }
{
    if extended {
        slot as usize * 2
    } else {
        slot as usize
    }
}

// The page of the entry at a slot, whose first word is e.
pub fn page_of(extended: bool, tables: &PageTables, slot: u16, e: u16) -> usize
    requires slot_lt_slot_count { slot < slot_count }
    requires e_value { e ≡ get_or tables.now (first_word extended slot) 0 }
    ensures value { result ≡ (entry_at extended tables.now slot).page }
    ensures upper_bound { result < 16384 }
{
    if extended {
        (tables[slot as usize * 2 + 1] % 16384) as usize
    } else {
        (e % 512) as usize
    }
}

// Whether the entry with the first word e has the permit that the kind needs, whatever its page.
pub fn permitted(e: u16, k: AccessKind) -> bool
    ensures { (page : ℕ) → result ≡ needed (entry_of e page) k }
{
    match k {
        AccessKind::Fetch => e / 8192 % 2 == 1,
        AccessKind::Read => e / 16384 % 2 == 1,
        AccessKind::Write => e / 32768 % 2 == 1,
        AccessKind::Indirect => e / 8192 % 4 != 0,
    }
}

// Whether it has any permit.
#[tactic(auto, using(crate::proofs::Laws::any_permit))]
pub fn some_permit(e: u16) -> bool
    ensures { (page : ℕ) → result ≡ some_permit (entry_of e page) }
{
    e / 8192 != 0
}

// PGS after a failed access by the entry at the slot.
pub fn status(k: AccessKind, missing: u16, slot: u16) -> u16
    requires missing_bound { missing < 16385 }
    requires slot_lt_slot_count { slot < slot_count }
    ensures { result ≡ paging_status k missing slot }
{
    match k {
        AccessKind::Fetch => 32768 + missing + slot,
        AccessKind::Read | AccessKind::Write | AccessKind::Indirect => missing + slot,
    }
}

// Its first word with the marks of a passed access.
pub fn mark(k: AccessKind, e: u16) -> u16
    ensures { result ≡ mark_of k e }
{
    match k {
        AccessKind::Write => e / 8192 * 8192 + 6144 + e % 2048,
        AccessKind::Fetch | AccessKind::Read | AccessKind::Indirect => {
            e / 4096 * 4096 + 2048 + e % 2048
        }
    }
}

// The slot of the entry that an access goes by.
pub fn slot_of(r: Rights, alternate: bool, a: u16) -> u16
    requires { (r.normal < 4) × (r.alternate < 4) }
    ensures value { result ≡ slot_of (table_of r alternate) a }
    ensures upper_bound { result < slot_count }
{
    let table = if alternate { r.alternate } else { r.normal };
    table * 64 + a / 1024 % 64
}
