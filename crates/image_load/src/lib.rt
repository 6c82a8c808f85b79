// The machine of an image, loaded: every test, then the stores.
#![tactic(auto)]

ghost use Rattle.std.specs.Prelude.{◌≡◌};
ghost use Rattle.isa.specs.Images.{loaded_state};
ghost use Rattle.isa.specs.Answers.{load_answer, load_call};
ghost use Rattle.image_load.specs.Loading.{state_by, call_of};

use crate::bodies::{fill, loaded_state};
use checks::{in_range, sizes_fit};
use image_directory::entry::{Kind, contents_fit};
use image_directory::refusal::list_answer;
use isa::answer::{Answered, Refusal};
use isa::machine::State;

pub mod bodies;

// The state that an image has. Refusals 1, 4 to 8 and 2.
#[tactic(auto, using(crate::proofs::Called::load_tests, crate::proofs::Called::registers_placeable, crate::proofs::Called::control_placeable, crate::proofs::Called::devices_placeable))]
fn loaded(image: &[u16], mem: &[u16], tables: &[u16]) -> Result<State, Refusal>
    ensures { result ≡ state_by (load_answer image.now mem.now tables.now) (loaded_state image.now) }
{
    if !sizes_fit(mem, tables) {
        return Err(Refusal::Sizes);
    }
    if !contents_fit(image) {
        return Err(Refusal::Contents);
    }
    list_answer(image, mem.len())?;
    let s = loaded_state(image);
    if !in_range(s) {
        return Err(Refusal::State);
    }
    Ok(s)
}

// The machine of an image. Every refusal comes before the first store and leaves state, memory and page tables.
#[tactic(auto, using(crate::proofs::Called::loaded_is, crate::proofs::Called::tables_lie, crate::proofs::Called::tables_are), unfolding(isa::specs::Answers::load_call))]
pub fn load(s: State, image: &[u16], mem: &mut [u16], tables: &mut [u16]) -> Answered<()>
    ensures { call_of result mem.new tables.new
        ≡ load_call s image.now mem.old tables.old }
{
    match loaded(image, mem, tables) {
        Ok(state) => {
            fill(Kind::Memory, image, mem);
            fill(Kind::Tables, image, tables);
            Answered {
                answer: Ok(()),
                state,
            }
        }
        Err(r) => Answered {
            answer: Err(r),
            state: s,
        },
    }
}
