// Arithmetic on words: signed numbers, the adder with its flags, products, quotients, shifts, and single bits.
#![tactic(auto)]

pub mod adder;
pub mod bits;
pub mod product;
pub mod quotient;
pub mod shift;
pub mod signed;
pub mod whole;
