// Views: what is shown of the lent words.
#![tactic(auto)]

ghost use Rattle.std.specs.Prelude.{◌≡◌, option_copied};
ghost use Rattle.isa.specs.Answers.{target_of, view_answer, viewed};
ghost use Rattle.view.specs.Parts.{part_of};

use checks::sizes_fit;
use isa::answer::{Refusal, Target};

fn target<'a>(kind: Target, mem: &'a [u16], tables: &'a [u16]) -> &'a [u16]
    ensures { result.now ≡ target_of kind mem.now tables.now }
{
    match kind {
        Target::Memory => mem,
        Target::Tables => tables,
    }
}

// The words from start on, len of them, if there are so many.
#[tactic(auto, unfolding(crate::specs::Parts::part_of))]
fn part(words: &[u16], start: usize, len: usize) -> Option<&[u16]>
    ensures { option_copied result ≡ part_of words.now start len }
{
    words.get(start..)?.get(..len)
}

// A part of the lent memory or of the lent page tables; a refused view is empty.
#[tactic(auto, unfolding(isa::specs::Answers::viewed, isa::specs::Answers::view_answer, crate::specs::Parts::part_of))]
pub fn view<'a>(
    kind: Target,
    start: usize,
    len: usize,
    mem: &'a [u16],
    tables: &'a [u16],
) -> &'a [u16]
    ensures { result.now ≡ viewed kind start len mem.now tables.now }
{
    if !sizes_fit(mem, tables) {
        return &[];
    }
    part(target(kind, mem, tables), start, len).unwrap_or(&[])
}

// Refusal 1, sizes; refusal 9, a part beyond the end.
#[tactic(auto, unfolding(isa::specs::Answers::view_answer, crate::specs::Parts::part_of))]
pub fn view_answer(
    kind: Target,
    start: usize,
    len: usize,
    mem: &[u16],
    tables: &[u16],
) -> Result<(), Refusal>
    ensures { result ≡ view_answer kind start len mem.now tables.now }
{
    if !sizes_fit(mem, tables) {
        return Err(Refusal::Sizes);
    }
    match part(target(kind, mem, tables), start, len) {
        Some(_) => Ok(()),
        None => Err(Refusal::View),
    }
}
