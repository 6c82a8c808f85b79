// The fetch: from the page of the last one where that is kept, and else by the page tables.
ghost use Rattle.std.specs.Prelude.{◌≡◌, ◌<◌, length, IfOk};
ghost use Rattle.paging.specs.Levels.{on_ring};
ghost use Rattle.paging.specs.Within.{Within};
ghost use Rattle.exec_step.specs.Fetches.{no_page, page_at, page_of, page_after, page_next, Kept, FetchOf};

use exec_memory::fetch::ring_after;
use isa::access::{AccessKind, Fault, Place, Rights};
use isa::constant::{ENTRIES_IN_TABLE, PAGE_WORDS};
use isa::machine::PageTables;
use paging::place::word_at;
use paging::rights::on_ring;
use paging::translation::{ring_at, translate};

// A virtual page and the physical address of its first word. While it is kept, a fetch from it passes and has no mark
// and no lowering due.
#[derive(Clone, Copy)]
pub struct Page {
    pub number: usize,
    pub base: usize,
}

// The word fetched, the ring after it, where it was found, and the page to keep.
#[derive(Clone, Copy)]
pub struct FetchResult {
    pub word: u16,
    pub ring: u32,
    pub place: Place,
    pub page: Page,
}

// None is kept: no virtual page has this number.
// An Option in place of this number takes 7 machine instructions a step of a run more.
pub fn no_page() -> Page
    ensures { result ≡ no_page }
{
    Page {
        number: ENTRIES_IN_TABLE,
        base: 0,
    }
}

// The page of the word p, which the address `at` names, if all of it is in memory.
fn page_at(words: usize, at: u16, p: usize) -> Page
    requires { p < words }
    ensures { result ≡ page_at words at p }
{
    let base = p / PAGE_WORDS * PAGE_WORDS;
    if PAGE_WORDS <= words - base {
        Page {
            number: at as usize / PAGE_WORDS,
            base,
        }
    } else {
        no_page()
    }
}

// The page of the word at the place x, if that is in memory.
fn page_of(words: usize, at: u16, x: Place) -> Page
    requires { Within words x }
    ensures { result ≡ page_of words at x }
{
    match x {
        Place::Load(p) => page_at(words, at, p),
        Place::Store(_) | Place::LoadTable(_) | Place::StoreTable(_) => no_page(),
    }
}

// The page to keep after a fetch to the place x, by the rights r that it left: ring 3 may write the page tables.
fn page_after(words: usize, r: Rights, at: u16, x: Place) -> Page
    requires { Within words x }
    ensures { result ≡ page_after words r at x }
{
    if r.paging && r.ring < 3 {
        page_of(words, at, x)
    } else {
        no_page()
    }
}

// By the page tables.
fn looked_up(at: u16, r: Rights, mem: &[u16], tables: &mut PageTables) -> Result<FetchResult, Fault>
    requires normal_bound { (r.normal < 4) × (r.alternate < 4) }
    ensures fetch_of { FetchOf mem.now tables.old r at result tables.new }
    ensures page_value { IfOk result (λ g. g.page ≡ page_after (length mem.now) (on_ring r g.ring) at g.place) }
    ensures kept { IfOk result (λ g. Kept (length mem.now) (on_ring r g.ring) g.page tables.new) }
{
    let ring = ring_at(tables, r, at);
    let x = translate(tables, mem.len(), r, AccessKind::Fetch, false, at)?;
    let q = ring_after(r, ring, Some(x));
    Ok(FetchResult {
        word: word_at(mem, tables, Some(x)),
        ring: q,
        place: x,
        page: page_after(mem.len(), on_ring(r, q), at, x),
    })
}

// By the rights r, of which PTM plays no part; k is the page that is kept.
#[tactic(auto, using(crate::proofs::Fetches::kept_place, crate::proofs::Fetches::kept_marks, crate::proofs::Fetches::kept_ring))]
pub fn fetch(
    at: u16,
    r: Rights,
    k: Page,
    mem: &[u16],
    tables: &mut PageTables,
) -> Result<FetchResult, Fault>
    requires normal_bound { (r.normal < 4) × (r.alternate < 4) }
    requires kept { Kept (length mem.now) r k tables.old }
    ensures fetch_of { FetchOf mem.now tables.old r at result tables.new }
    ensures page_value { IfOk result (λ g. g.page ≡ page_next (length mem.now) (on_ring r g.ring) k at g.place) }
    ensures kept_after { IfOk result (λ g. Kept (length mem.now) (on_ring r g.ring) g.page tables.new) }
{
    if at as usize / PAGE_WORDS == k.number {
        let p = k.base + at as usize % PAGE_WORDS;
        return Ok(FetchResult {
            word: mem[p],
            ring: r.ring,
            place: Place::Load(p),
            page: k,
        });
    }
    looked_up(at, r, mem, tables)
}
