// The first of several accesses that failed.
ghost use Rattle.std.specs.Prelude.{◌≡◌};
ghost use Rattle.paging.specs.Outcome.{nth};

use isa::access::{Fault, Place};

// Why it failed, and how many accesses were made, it among them.
#[derive(Clone, Copy)]
pub struct Failure {
    pub fault: Fault,
    pub made: u32,
}

// An access, of which so many are made.
#[inline(always)]
pub fn nth(x: Result<Place, Fault>, made: u32) -> Result<Place, Failure>
    ensures { result ≡ nth x made }
{
    x.map_err(|fault| Failure { fault, made })
}
