// A case, of its numbers.
use crate::base::PagingMode;
use crate::operation::Operation;

// The place of a case's first argument among its numbers.
const FIRST_ARGUMENT: usize = 5;

// A case counts the numbers that follow its count. One of the machine has operation, words of memory, words of page
// tables and count of arguments, then the arguments, then what it changes, in pairs of place and word. Numbers that are
// missing at the text's end are 0; a case that counts too few goes on in the next.
#[derive(Clone, Copy)]
pub(crate) struct Case<'a> {
    pub(crate) count: u64,
    numbers: &'a [u64],
}

impl<'a> Case<'a> {
    // The case whose count is the first of the numbers.
    pub(crate) fn new(numbers: &'a [u64]) -> Case<'a> {
        Case {
            count: numbers.first().copied().unwrap_or(0),
            numbers,
        }
    }

    // The number at a place; the count is at 0.
    fn number(self, place: usize) -> u64 {
        self.numbers.get(place).copied().unwrap_or(0)
    }

    // Its low 16 bits.
    pub(crate) fn word(self, place: usize) -> u16 {
        low(self.number(place))
    }

    pub(crate) fn operation(self) -> Operation {
        Operation::from(self.number(1))
    }

    // The base machine's mode: an operation's number has 8 more for extended mode, below 16 or above.
    pub(crate) fn mode(self) -> PagingMode {
        if self.number(1) % 16 < 8 {
            PagingMode::NineteenBit
        } else {
            PagingMode::Extended
        }
    }

    pub(crate) fn memory_words(self) -> usize {
        self.number(2) as usize
    }

    pub(crate) fn table_words(self) -> usize {
        self.number(3) as usize
    }

    pub(crate) fn argument_count(self) -> usize {
        self.number(4) as usize
    }

    pub(crate) fn argument(self, k: usize) -> u64 {
        self.number(k.wrapping_add(FIRST_ARGUMENT))
    }

    // The places of the changes, of two numbers each; a case has fewer than 65,536 numbers.
    pub(crate) fn changes(self) -> std::ops::Range<usize> {
        self.argument_count() % 65536 + FIRST_ARGUMENT..self.count as usize % 65536
    }

    // The change at a place: where, and the word that is put there.
    pub(crate) fn change(self, place: usize) -> (usize, u16) {
        (
            self.number(place) as usize,
            self.word(place.wrapping_add(1)),
        )
    }
}

// A number as a word.
pub(crate) fn low(number: u64) -> u16 {
    (number % 65536) as u16
}
