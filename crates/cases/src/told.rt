// What an operation answered, in numbers.
use isa::answer::Refusal;

// The refusal or 0; by a step the interrupt, by a run reason, steps and references, by a write the output's checksum,
// by a view its length and checksum.
#[derive(Clone, Copy, Default)]
pub(crate) struct Told {
    pub(crate) refusal: u64,
    pub(crate) first: u64,
    pub(crate) second: u64,
    pub(crate) third: u64,
}

impl From<Refusal> for Told {
    fn from(refusal: Refusal) -> Told {
        Told {
            refusal: u64::from(u16::from(refusal)),
            ..Told::default()
        }
    }
}
