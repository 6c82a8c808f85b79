// Words copied.
#![tactic(auto)]

ghost use Rattle.std.specs.Prelude.{◌≡◌, length};

// The words of `from`, to `to`, which has as many.
// No `copy_from_slice`: it calls memmove, one function more that the archive would need from outside, and the words of
// a state would go by way of memory.
#[tactic(auto, using(std::proofs::lemmas::List::take_more_set))]
pub fn copy_words(from: &[u16], to: &mut [u16])
    requires { length from.now ≡ length to.old }
    ensures { to.new ≡ from.now }
{
    for (i, word) in from.iter().enumerate() {
        to[i] = *word;
    }
}
