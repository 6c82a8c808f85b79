// An image's list of contents, tested: refusals 5 to 8.
ghost use Rattle.std.specs.Prelude.{◌≡◌, true, [], ◌+◌, ◌*◌, ◌≤◌, length, drop};
ghost use Rattle.isa.specs.Images.{contents_fit, entries_of, entries_answer, meets_any, named_words};
ghost use Rattle.image_directory.specs.Entries.{span_entry, image_entry_at};
ghost use Rattle.image_directory.specs.Listing.{seen_of, entry_answer, list_answer};

use crate::entry::{Kind, Span, entry_at, entry_count};
use isa::answer::Refusal;
use isa::constant::ENTRY_SIZE;

// Whether an entry covers a word that one of the first n covers.
#[tactic(auto, using(crate::proofs::Listed::any_found, crate::proofs::Listed::any_next, crate::proofs::Listed::any_none))]
fn meets_any(image: &[u16], n: usize, e: Span) -> bool
    requires { n * 5 + 1 ≤ length image.now }
    ensures { result ≡ meets_any (span_entry e) (seen_of n image.now) }
{
    for k in (0..n).rev() {
        if e.meets(entry_at(image, k)) {
            return true;
        }
    }
    false
}

// Refusals 5, 6 and 7 of entry k.
#[tactic(auto, using(crate::proofs::Listed::kind_known), unfolding(crate::specs::Listing::entry_answer))]
fn entry_answer(image: &[u16], k: usize, words: usize) -> Result<(), Refusal>
    requires { k * 5 + 6 ≤ length image.now }
    ensures { result ≡ entry_answer words (seen_of k image.now) (image_entry_at k image.now) }
{
    let e = entry_at(image, k);
    if Kind::try_from(e.kind)?.size(words) < e.end() {
        return Err(Refusal::Target);
    }
    if meets_any(image, k, e) {
        return Err(Refusal::Overlap);
    }
    Ok(())
}

// Refusals 5, 6 and 7, entry by entry.
#[tactic(auto, using(crate::proofs::Listed::entries_pass, crate::proofs::Listed::entries_stop, crate::proofs::Listed::entries_end, crate::proofs::Listed::entries_start))]
fn entries_answer(image: &[u16], n: usize, words: usize) -> Result<(), Refusal>
    requires { n * 5 + 1 ≤ length image.now }
    ensures { result ≡ entries_answer words [] (entries_of n (drop 1 image.now)) }
{
    for k in 0..n {
        entry_answer(image, k, words)?;
    }
    Ok(())
}

// The words that the entries name in all.
#[tactic(auto, using(crate::proofs::Entries::named_next, crate::proofs::Entries::named_end, crate::proofs::Entries::rest_start))]
fn named_words(image: &[u16], n: usize) -> usize
    requires n_in_bounds { n * 5 + 1 ≤ length image.now }
    requires n_bound { n ≤ 32 }
    ensures { result ≡ named_words (entries_of n (drop 1 image.now)) }
{
    let mut sum = 0;
    for k in 0..n {
        sum += entry_at(image, k).count as usize;
    }
    sum
}

// Refusals 5 to 8, the last of them bodies other than exactly the rest, of an image whose contents fit, beside so many
// words of memory.
#[tactic(auto, using(crate::proofs::Entries::contents_some, crate::proofs::Entries::contents_few, crate::proofs::Entries::contents_whole), unfolding(crate::specs::Listing::list_answer))]
pub fn list_answer(image: &[u16], words: usize) -> Result<(), Refusal>
    requires { contents_fit image.now ≡ true }
    ensures { result ≡ list_answer words image.now }
{
    let n = entry_count(image);
    entries_answer(image, n, words)?;
    if named_words(image, n) != image.len() - (1 + n * ENTRY_SIZE) {
        return Err(Refusal::Bodies);
    }
    Ok(())
}
