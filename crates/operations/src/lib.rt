// The entry points. Each takes the machine as it comes: nothing is required of the caller, and a refused call leaves
// state, memory, page tables and output as they came. Each promises its whole answer, and its number and values as
// document 01 has them.
#![tactic(auto)]

ghost use Rattle.std.specs.Prelude.{◌≡◌};
ghost use Rattle.isa.specs.Answers.{view_answer, viewed, write_answer, written_output, load_call};
ghost use Rattle.isa.specs.Answers.{answer_numbers, load_told, write_told, view_told};
ghost use Rattle.image_load.specs.Loading.{call_of};

use isa::answer::{Answered, Refusal, Target};
use isa::machine::State;

pub mod device;
pub mod input;
pub mod pair;
pub mod raise;
pub mod reload;
pub mod runs;
pub mod step;

// The machine of an image. Refusals 1, 4 to 8 and 2.
#[tactic(auto, using(crate::proofs::Laws::load_told_law))]
pub fn load(s: State, image: &[u16], mem: &mut [u16], tables: &mut [u16]) -> Answered<()>
    ensures tables_after { call_of result mem.new tables.new
        ≡ load_call s image.now mem.old tables.old }
    ensures answer_value { answer_numbers result.answer
        ≡ load_told image.now mem.old tables.old }
{
    image_load::load(s, image, mem, tables)
}

// The machine as an image. Refusals 1, 2 and 10; words past the image stay.
#[tactic(auto, using(laws::proofs::Numbers::calls_tell))]
pub fn write(s: State, mem: &[u16], tables: &[u16], out: &mut [u16]) -> Result<(), Refusal>
    ensures value { result ≡ write_answer s mem.now tables.now out.old }
    ensures out_after { out.new ≡ written_output s mem.now tables.now out.old }
    ensures result_value { answer_numbers result ≡ write_told s mem.now tables.now out.old }
{
    image_write::write(s, mem, tables, out)
}

// A part of the lent memory or of the lent page tables; a refused view is empty.
pub fn view<'a>(
    kind: Target,
    start: usize,
    len: usize,
    mem: &'a [u16],
    tables: &'a [u16],
) -> &'a [u16]
    ensures { result.now ≡ viewed kind start len mem.now tables.now }
{
    view::view(kind, start, len, mem, tables)
}

// The call beside it, which tells the view's number. Refusals 1 and 9.
#[tactic(auto, using(laws::proofs::Numbers::calls_tell))]
pub fn view_answer(
    kind: Target,
    start: usize,
    len: usize,
    mem: &[u16],
    tables: &[u16],
) -> Result<(), Refusal>
    ensures value { result ≡ view_answer kind start len mem.now tables.now }
    ensures result_value { answer_numbers result ≡ view_told kind start len mem.now tables.now }
{
    view::view_answer(kind, start, len, mem, tables)
}
