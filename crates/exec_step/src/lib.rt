// One step of the running level over its file, its ring, memory and tables: the fetch, the ring, and the word fetched;
// an event names what is left to be done.
#![tactic(auto)]

ghost use Rattle.std.specs.Prelude.{◌≡◌, ◌<◌, true, false, length};
ghost use Rattle.isa.specs.Machine.{reg};
ghost use Rattle.isa.specs.Address.{access};
ghost use Rattle.isa.specs.Pages.{translate};
ghost use Rattle.isa.specs.declared.access.AccessKind.TheVariants.{Fetch};
ghost use Rattle.isa.specs.declared.machine.Register.TheVariants.{P};
ghost use Rattle.paging.specs.Levels.{on_ring};
ghost use Rattle.exec_step.specs.Fetches.{Kept, page_left};
ghost use Rattle.exec_step.specs.Steps.{StepOfLevel};
ghost use Rattle.event.specs.Events.{is_fine, tells_fault};

use crate::fetch::{Page, fetch, no_page};
use crate::instruction::executed_word;
use event::{Event, by_privilege};
use isa::access::Rights;
use isa::machine::{File, PageTables, Register};
use paging::rights::{on_ring, privileged};

pub mod fetch;
mod instruction;

// The level's file and ring after the step, the page of its fetch, how it ended, and the references of fetch and
// instruction.
#[derive(Clone, Copy)]
pub struct LevelStep {
    pub file: File,
    pub ring: u32,
    pub page: Page,
    pub event: Option<Event>,
    pub references: u64,
}

// By the rights r with PTM 1 and the kept page k.
pub fn step_in(f: File, r: Rights, k: Page, mem: &mut [u16], tables: &mut PageTables) -> LevelStep
    requires normal_bound { (r.normal < 4) × (r.alternate < 4) }
    requires ring_bound { r.ring < 4 }
    requires kept { Kept (length mem.old) r k tables.old }
    ensures ring_after { result.ring < 4 }
    ensures step_of_level { StepOfLevel f r mem.old tables.old result mem.new
        tables.new }
    ensures page_value { result.page ≡ page_left (length mem.old) (on_ring r result.ring) k (reg f P)
        (translate tables.old (length mem.old) r (access Fetch false (reg f P))) }
    ensures kept_after { is_fine result.event ≡ true
        → Kept (length mem.new) (on_ring r result.ring) result.page tables.new }
    ensures told { tells_fault result.event ≡ true }
{
    let at = f.get(Register::P);
    match fetch(at, r, k, mem, tables) {
        Ok(g) => {
            let s = on_ring(r, g.ring);
            let e = executed_word(f.next(), at, s, mem, tables, g.word);
            LevelStep {
                file: e.file,
                ring: g.ring,
                page: g.page,
                event: by_privilege(privileged(s), e.event),
                references: 1 + e.references as u64,
            }
        }
        Err(x) => LevelStep {
            file: f,
            ring: r.ring,
            page: no_page(),
            event: Some(Event::Failed(Some(x))),
            references: 1,
        },
    }
}
