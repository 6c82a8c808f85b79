// Steps of the running level over its file, ring, memory and tables alone. No control word changes between them, so
// that what is tested before a step need not be tested again.
#![tactic(auto)]

ghost use Rattle.std.specs.Prelude.{◌≡◌, ◌<◌, true};
ghost use Rattle.isa.specs.Pages.{lowered_pcr};
ghost use Rattle.event.specs.Events.{tells_fault};
ghost use Rattle.run_level.specs.Bursts.{QuietSteps, QuietStep};

use event::Event;
use exec_step::fetch::no_page;
use exec_step::step_in;
use isa::machine::{File, PageTables};
use paging::rights::{level_rights, on_ring};

// The file and the PCR after the last step, the steps before it, how it ended, and the references of all of them, their
// sum's low 64 bits.
#[derive(Clone, Copy)]
pub struct Burst {
    pub file: File,
    pub pcr: u16,
    pub before: u64,
    pub event: Option<Event>,
    pub references: u64,
}

// p is the PCR that the level began with, ring the ring that it has now.
fn burst_of(
    file: File,
    p: u16,
    ring: u32,
    before: u64,
    event: Option<Event>,
    references: u64,
) -> Burst
    requires { ring < 4 }
    ensures { result ≡ record {
      file = file;
      pcr = lowered_pcr p ring;
      before = before;
      event = event;
      references = references;
    } }
{
    Burst {
        file,
        pcr: p / 4 * 4 + ring as u16,
        before,
        event,
        references,
    }
}

// At most n steps, up to the first that ends the burst. The PCR's tables and the switches for paging and extended mode
// stay; the ring is carried.
#[inline(always)]
pub fn quiet_steps(
    f: File,
    p: u16,
    paging: u16,
    extended: u16,
    mem: &mut [u16],
    tables: &mut PageTables,
    n: u64,
) -> Burst
    requires n_nonzero { 0 < n }
    ensures before_lt_n { result.before < n }
    ensures quiet_steps { QuietSteps f p paging extended mem.old tables.old n result mem.new
        tables.new }
    ensures quiet_step { QuietStep f p paging extended mem.old tables.old result mem.new
        tables.new }
    ensures told { tells_fault result.event ≡ true }
{
    let base = level_rights(p, paging, extended);
    let mut file = f;
    let mut ring = base.ring;
    let mut left = n;
    let mut page = no_page();
    let mut references: u64 = 0;
    // Steps are counted here, and no index.
    while 0 < left {
        let s = step_in(file, on_ring(base, ring), page, mem, tables);
        file = s.file;
        ring = s.ring;
        page = s.page;
        references = references.wrapping_add(s.references);
        if event::ends(s.event) {
            return burst_of(file, p, ring, n - left, s.event, references);
        }
        left -= 1;
    }
    burst_of(file, p, ring, n - 1, None, references)
}
