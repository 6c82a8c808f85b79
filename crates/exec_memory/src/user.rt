// An unprivileged instruction.
ghost use Rattle.std.specs.Prelude.{◌≡◌, ◌<◌, true};
ghost use Rattle.isa.specs.declared.instruction.User.TheVariants.{Memory};
ghost use Rattle.isa.specs.Machine.{reg};
ghost use Rattle.isa.specs.declared.machine.Register.TheVariants.{Sts};
ghost use Rattle.paging.specs.Levels.{by_flags};
ghost use Rattle.event.specs.Events.{tells_fault};
ghost use Rattle.exec_memory.specs.Stages.{UserStage, byte_location};

use crate::address::address_of;
use crate::request::serve;
use crate::single::read_word;
use crate::update::put_byte;
use event::{Ending, after, failed};
use exec_address::byte::byte_address;
use exec_address::request::{Reading, request_of};
use exec_register::complete::complete;
use isa::access::Rights;
use isa::instruction::{MemoryOp, Mode, User};
use isa::machine::{File, PageTables, Register};
use memory_words::location::Location;
use paging::rights::by_flags;

fn memory_stage(
    f: File,
    at: u16,
    r: Rights,
    mem: &mut [u16],
    tables: &mut PageTables,
    o: MemoryOp,
    m: Mode,
    d: i16,
) -> Ending
    requires normal_bound { (r.normal < 4) × (r.alternate < 4) }
    ensures user_stage { UserStage f at r (Memory o m d) mem.old tables.old result mem.new
        tables.new }
    ensures told { tells_fault result.event ≡ true }
{
    match address_of(f, at, r, mem, tables, m, d) {
        Ok(e) => {
            let x = Location {
                rights: r,
                alternate: e.alternate,
                address: e.address,
            };
            after(e.read, serve(f, mem, tables, x, request_of(o, f)))
        }
        Err(x) => failed(f, Some(x), 1),
    }
}

// The word of LBYT and SBYT.
fn byte_location(f: File, r: Rights) -> Location
    ensures { result ≡ byte_location (by_flags r (reg f Sts)) f }
{
    Location {
        rights: by_flags(r, f.get(Register::Sts)),
        alternate: true,
        address: byte_address(f),
    }
}

// By the rights r with PTM 1.
#[tactic(auto, using(crate::proofs::Stages::byte_read, crate::proofs::Stages::byte_put, crate::proofs::Stages::register_served))]
pub fn user_stage(
    f: File,
    at: u16,
    r: Rights,
    mem: &mut [u16],
    tables: &mut PageTables,
    u: User,
) -> Ending
    requires normal_bound { (r.normal < 4) × (r.alternate < 4) }
    ensures user_stage { UserStage f at (by_flags r (reg f Sts)) u mem.old tables.old result
        mem.new tables.new }
    ensures told { tells_fault result.event ≡ true }
{
    // memory operations first: so ordered, the run's loop takes the fewest machine instructions (docs/BENCHMARK.md)
    if let User::Memory(o, m, d) = u {
        return memory_stage(
            f,
            at,
            by_flags(r, f.get(Register::Sts)),
            mem,
            tables,
            o,
            m,
            d,
        );
    }
    if let User::StoreByte = u {
        return put_byte(f, mem, tables, byte_location(f, r));
    }
    if let User::LoadByte = u {
        return read_word(f, mem, tables, byte_location(f, r), Reading::Byte);
    }
    complete(u, f, at)
}
