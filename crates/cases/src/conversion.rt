// Conversions of the floating forms: the answer's line is 0 and the words of the other form, or the refusal's number.
use crate::case::Case;
use floating::form::{Long, Short};
use floating::{long_to_short, short_to_long};
use isa::answer::Refusal;
use std::io;

fn refused(rt: &impl Print, refusal: Refusal) -> io::Result<()> {
    println!(rt; "{}", u16::from(refusal))
}

// A case of words A and D of a short number.
pub(crate) fn short_converted(rt: &impl Print, case: Case<'_>) -> io::Result<()> {
    let short = Short {
        a: case.word(1),
        d: case.word(2),
    };
    match short_to_long(short) {
        Ok(Long { t, a, d }) => println!(rt; "0 {t:06o} {a:06o} {d:06o}"),
        Err(refusal) => refused(rt, refusal),
    }
}

// A case of words T, A and D of a long number.
pub(crate) fn long_converted(rt: &impl Print, case: Case<'_>) -> io::Result<()> {
    let long = Long {
        t: case.word(1),
        a: case.word(2),
        d: case.word(3),
    };
    match long_to_short(long) {
        Ok(Short { a, d }) => println!(rt; "0 {a:06o} {d:06o}"),
        Err(refusal) => refused(rt, refusal),
    }
}
