// The effective address of a memory operation.
ghost use Rattle.std.specs.Prelude.{◌<◌};
ghost use Rattle.exec_memory.specs.Stages.{Addressed, ByIndirect};

use exec_address::address::{address_rule, first_address};
use exec_address::indirect::{after_indirect, first_rule, has_indirect};
use isa::access::{AccessKind, Fault, Rights};
use isa::instruction::Mode;
use isa::machine::{File, PageTables};
use paging::place::word_at;
use paging::translation::translate;

// Whether the address goes by the alternate rule, the address, and how many words were read to find it, 0 or 1.
#[derive(Clone, Copy)]
pub struct Effective {
    pub alternate: bool,
    pub address: u16,
    pub read: u32,
}

// By the indirect word at a, or the access for it failed.
fn by_indirect(
    f: File,
    r: Rights,
    mem: &[u16],
    tables: &mut PageTables,
    m: Mode,
    a: u16,
) -> Result<Effective, Fault>
    requires normal_bound { (r.normal < 4) × (r.alternate < 4) }
    ensures { ByIndirect f r m a mem.now tables.old result tables.new }
{
    let x = translate(tables, mem.len(), r, AccessKind::Indirect, first_rule(m), a)?;
    Ok(Effective {
        alternate: address_rule(m),
        address: after_indirect(m, f, word_at(mem, tables, Some(x))),
        read: 1,
    })
}

// Of mode m and displacement d, of an instruction at the address `at`.
pub(crate) fn address_of(
    f: File,
    at: u16,
    r: Rights,
    mem: &[u16],
    tables: &mut PageTables,
    m: Mode,
    d: i16,
) -> Result<Effective, Fault>
    requires normal_bound { (r.normal < 4) × (r.alternate < 4) }
    ensures { Addressed f at r m d mem.now tables.old result tables.new }
{
    let a = first_address(m, d, f, at);
    if has_indirect(m) {
        return by_indirect(f, r, mem, tables, m, a);
    }
    Ok(Effective {
        alternate: address_rule(m),
        address: a,
        read: 0,
    })
}
