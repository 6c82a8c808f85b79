// The ring after a fetch.
ghost use Rattle.std.specs.Prelude.{◌≡◌};
ghost use Rattle.exec_memory.specs.Stages.{ring_left};

use isa::access::{Place, Rights};

// A passed fetch from memory leaves the ring of its entry: one from a higher ring does not pass. Any other leaves the
// ring as it is.
pub fn ring_after(r: Rights, ring: u16, x: Option<Place>) -> u32
    ensures { result ≡ ring_left r ring x }
{
    if r.paging && matches!(x, Some(Place::Load(_))) {
        ring as u32
    } else {
        r.ring
    }
}
