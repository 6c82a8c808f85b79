// An access to memory, what it is judged by, and where it goes or why it failed.
// The kinds of access; Indirect is the access for an indirect word.
#[derive(Clone, Copy)]
pub enum AccessKind {
    Fetch,
    Read,
    Write,
    Indirect,
}

// One access: its kind, whether it goes by the alternate rule, and the address.
#[derive(Clone, Copy)]
pub struct Access {
    pub kind: AccessKind,
    pub alternate: bool,
    pub address: u16,
}

// What an access is judged by: paging, extended mode, the user's ring, and the tables that the normal and the alternate
// rule name. In document 01 a ring has two bits. The 32 bits are the compiler's choice, not the document's: with 16 the
// struct would be eight bytes long, copied as one number and taken apart by shifts at each use, which is slower
// (docs/BENCHMARK.md). No definition depends on the width: to them the ring is a number below 4 (Machine.ring_of).
#[derive(Clone, Copy)]
pub struct Rights {
    pub paging: bool,
    pub extended: bool,
    pub ring: u32,
    pub normal: u16,
    pub alternate: u16,
}

// Up to three words, in order: Pages.words_of and the definitions of what is stored take them so.
#[derive(Clone, Copy)]
pub struct Triple {
    pub a: u16,
    pub b: u16,
    pub c: u16,
}

// A place that an access goes to, an index into the lent words: a word of memory, or of the page tables, to load from
// or to store to.
#[derive(Clone, Copy)]
pub enum Place {
    Load(usize),
    Store(usize),
    LoadTable(usize),
    StoreTable(usize),
}

// Why an access failed: the needed permit is missing or the ring too low, or there is no permit at all, each with the
// paging status; or the page is beyond the memory.
#[derive(Clone, Copy)]
pub enum Fault {
    Protection(u16),
    PageFault(u16),
    OutOfRange,
}
