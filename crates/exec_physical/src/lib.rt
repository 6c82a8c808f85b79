// LDATX to STDTX: one word or two of memory or page tables, by the physical address in T and X.
#![tactic(auto)]

ghost use Rattle.std.specs.Prelude.{◌≡◌, ◌<◌, if◌then◌else◌};
ghost use Rattle.isa.specs.Physical.{transfer_address, transfer_kind, two_words, transfer_stores, transferred};
ghost use Rattle.exec_physical.specs.Transfers.{address_range, Transferred};

use isa::access::{AccessKind, Triple};
use isa::constant::WORD_RANGE;
use isa::instruction::Transfer;
use isa::machine::{File, PageTables, Register};
use paging::failure::{Failure, nth};
use paging::physical::physical_place;
use paging::place::{store_at, word_at};

// What a word is below, as a size.
const RANGE: usize = WORD_RANGE as usize;

// T * 65,536 + X + the displacement: no carry is dropped.
fn address(f: File, d: u16) -> usize
    ensures value { result ≡ transfer_address f d }
    ensures upper_bound { result < address_range }
{
    f.get(Register::T) as usize * RANGE + f.get(Register::X) as usize + d as usize
}

// LD or ST.
fn kind_of(o: Transfer) -> AccessKind
    ensures { result ≡ transfer_kind o }
{
    match o {
        Transfer::Ldatx | Transfer::Ldxtx | Transfer::Lddtx | Transfer::Ldbtx => AccessKind::Read,
        Transfer::Statx | Transfer::Stztx | Transfer::Stdtx => AccessKind::Write,
    }
}

// LDDTX and STDTX.
fn two_words(o: Transfer) -> bool
    ensures { result ≡ two_words o }
{
    matches!(o, Transfer::Lddtx | Transfer::Stdtx)
}

// How many words the instruction has.
pub fn words_of(o: Transfer) -> u32
    ensures { result ≡ (if two_words o then 2 else 1) }
{
    if two_words(o) { 2 } else { 1 }
}

fn triple(w: u16, v: u16) -> Triple
    ensures { result ≡ record { a = w; b = v; c = 0 } }
{
    Triple { a: w, b: v, c: 0 }
}

// The words to store.
fn stores(o: Transfer, f: File) -> Triple
    ensures { result ≡ transfer_stores o f }
{
    match o {
        Transfer::Statx => triple(f.get(Register::A), 0),
        Transfer::Stdtx => triple(f.get(Register::A), f.get(Register::D)),
        Transfer::Ldatx | Transfer::Ldxtx | Transfer::Lddtx | Transfer::Ldbtx | Transfer::Stztx =>
            triple(0, 0),
    }
}

// The registers after the words w and v, the second only where there are two, were read.
fn loaded(o: Transfer, f: File, w: u16, v: u16) -> File
    ensures { result ≡ transferred o f w v }
{
    match o {
        Transfer::Ldatx => f.with(Register::A, w),
        Transfer::Ldxtx => f.with(Register::X, w),
        Transfer::Lddtx => f.with(Register::A, w).with(Register::D, v),
        Transfer::Ldbtx => f.with(Register::B, 0o177000 | w.wrapping_add(w)),
        Transfer::Statx | Transfer::Stztx | Transfer::Stdtx => f,
    }
}

// The level's registers after the instruction, or the access that failed: all are tested before a load or a store takes
// effect.
pub fn transfer(
    f: File,
    extended: bool,
    mem: &mut [u16],
    tables: &mut PageTables,
    o: Transfer,
    d: u16,
) -> Result<File, Failure>
    ensures { Transferred f extended o d mem.old tables.old result mem.new tables.new }
{
    let p = address(f, d);
    let w = stores(o, f);
    let x = nth(physical_place(extended, mem.len(), kind_of(o), p), 1)?;
    if !two_words(o) {
        let g = loaded(o, f, word_at(mem, tables, Some(x)), 0);
        store_at(mem, tables, Some(x), w.a);
        return Ok(g);
    }
    let y = nth(physical_place(extended, mem.len(), kind_of(o), p + 1), 2)?;
    let g = loaded(
        o,
        f,
        word_at(mem, tables, Some(x)),
        word_at(mem, tables, Some(y)),
    );
    store_at(mem, tables, Some(x), w.a);
    store_at(mem, tables, Some(y), w.b);
    Ok(g)
}
