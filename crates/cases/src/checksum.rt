// Checksums of words.
ghost use Rattle.std.specs.Prelude.{◌<◌};

use std::fmt;

// A checksum of words, of which each counts by its place.
#[derive(Clone, Copy)]
pub(crate) struct Checksum {
    value: u64,
    ghost in_range: { value < 4294967291 },
}

impl Checksum {
    // Of no words.
    pub(crate) const NONE: Checksum = Checksum { value: 1 };

    pub(crate) fn of(words: &[u16]) -> Checksum {
        Checksum::NONE.with(words)
    }

    fn with_word(self, word: u16) -> Checksum {
        Checksum {
            value: (self.value * 1000003 + u64::from(word) + 1) % 4294967291,
        }
    }

    // Of more words, after these.
    pub(crate) fn with(self, words: &[u16]) -> Checksum {
        words
            .iter()
            .fold(self, |sum: Checksum, word| sum.with_word(*word))
    }

    pub(crate) fn value(self) -> u64
        ensures { result < 4294967291 }
    {
        self.value
    }
}

// In hexadecimal.
impl fmt::Display for Checksum {
    fn fmt<W: fmt::Write>(&self, f: &mut fmt::Formatter<W>) -> fmt::Result {
        let value = self.value;
        write!(f, "{value:08x}")
    }
}
