// What the running level's accesses are judged by.
ghost use Rattle.std.specs.Prelude.{◌≡◌, cond, ◌<◌, eqb};
ghost use Rattle.isa.specs.Machine.{bit, flag_ptm};
ghost use Rattle.isa.specs.Pages.{rights_by};
ghost use Rattle.paging.specs.Levels.{level_rights, by_flags, on_ring, privileged_by};

use isa::access::Rights;

// By PCR and the control words for paging and extended mode, with PTM 1.
pub fn level_rights(p: u16, paging: u16, extended: u16) -> Rights
    ensures value { result ≡ level_rights p paging extended }
    ensures normal_bound { (result.normal < 4) × (result.alternate < 4) }
{
    Rights {
        paging: paging == 1,
        extended: extended == 1,
        ring: (p % 4) as u32,
        normal: p / 512 % 4,
        alternate: p / 128 % 4,
    }
}

fn alternate_of(r: Rights, sts: u16) -> u16
    ensures { result ≡ cond (eqb (bit flag_ptm sts) 1) r.alternate r.normal }
{
    if sts % 2 == 1 { r.alternate } else { r.normal }
}

// With PTM of STS.
pub fn by_flags(r: Rights, sts: u16) -> Rights
    ensures { result ≡ by_flags r sts }
{
    Rights {
        alternate: alternate_of(r, sts),
        ..r
    }
}

// On another ring.
pub fn on_ring(r: Rights, ring: u32) -> Rights
    ensures { result ≡ on_ring r ring }
{
    Rights { ring, ..r }
}

// By STS, PCR and the control words for paging and extended mode.
pub fn rights(sts: u16, p: u16, paging: u16, extended: u16) -> Rights
    ensures value { result ≡ rights_by sts p paging extended }
    ensures normal_bound { (result.normal < 4) × (result.alternate < 4) }
{
    by_flags(level_rights(p, paging, extended), sts)
}

// Whether privileged instructions may be executed: with paging on, on rings 2 and 3.
pub fn privileged(r: Rights) -> bool
    ensures { result ≡ privileged_by r }
{
    !r.paging || 2 <= r.ring
}
