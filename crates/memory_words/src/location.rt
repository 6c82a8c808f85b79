// Where the words of an instruction stand.
use isa::access::Rights;

// The effective address, whether its accesses go by the alternate rule, and the rights that they are judged by.
#[derive(Clone, Copy)]
pub struct Location {
    pub rights: Rights,
    pub alternate: bool,
    pub address: u16,
}
