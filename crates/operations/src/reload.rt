// Demand 2 of what is shipped, its last sentence: a machine written as an image, and the image loaded into another one.
ghost use Rattle.operations.specs.Calls.{reload_of};
ghost use Rattle.operations.specs.Reload.{WrittenAndLoaded};

use crate::{load, write};
use isa::answer::Refusal;
use isa::constant::BESIDE_MEMORY;
use isa::machine::State;

// What write and load answer, and the state of the machine loaded into. A refused write's refusal stands for load's.
#[derive(Clone, Copy)]
pub struct ReloadResult {
    pub written: Result<(), Refusal>,
    pub loaded: Result<(), Refusal>,
    pub state: State,
}

// The machine s with mem and tables, written to out, and loaded into the machine `old` with memory `to` and page tables
// `copies`.
pub fn write_and_load(
    s: State,
    mem: &[u16],
    tables: &[u16],
    out: &mut [u16],
    old: State,
    to: &mut [u16],
    copies: &mut [u16],
) -> ReloadResult
    ensures { WrittenAndLoaded s mem.now tables.now out.old
        old to.old copies.old
        result.written out.new (reload_of result to.new copies.new) }
{
    match write(s, mem, tables, out) {
        Ok(()) => {
            let r = load(old, &out[..mem.len() + BESIDE_MEMORY], to, copies);
            ReloadResult {
                written: Ok(()),
                loaded: r.answer,
                state: r.state,
            }
        }
        Err(x) => ReloadResult {
            written: Err(x),
            loaded: Err(x),
            state: old,
        },
    }
}
