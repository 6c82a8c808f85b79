// The PCRs of all levels. The running level's is among the lent ones here.
ghost use Rattle.isa.specs.Machine.{level_count, register_words};
ghost use Rattle.std.specs.Prelude.{◌≡◌, List, ℕ, ◌<◌, length, set, get_or};
ghost use Rattle.isa.specs.Machine.{pack, pcr_mask};
ghost use Rattle.isa.specs.Step.{pcr_level, with_pcrs};
ghost use Rattle.isa.specs.Decode.{four_of};
ghost use Rattle.levels.specs.Words.{own_a, with_a};

use isa::constant::LEVELS;
use isa::machine::{Core, Pcrs, Register};

// A PCR's level is in A bits 6-3.
fn pcr_place(a: u16) -> usize
    ensures value { result ≡ four_of a }
    ensures upper_bound { result < level_count }
{
    (a / 8 % LEVELS) as usize
}

// TRA PGC: the PCR of the level in A, to A.
pub fn pcr_read(level: u16, c: Core, pcrs: &mut Pcrs) -> Core
    requires level_lt_level_count { level < level_count }
    ensures { (b : List ℕ) → length b ≡ register_words → pack level result b pcrs.new
        ≡ with_a (pack level c b pcrs.old)
        (get_or (set pcrs.old level c.pcr) (pcr_level (pack level c b pcrs.old)) 0) }
{
    pcrs[level as usize] = c.pcr;
    let i = pcr_place(c.file.get(Register::A));
    c.with_file(c.file.with(Register::A, pcrs[i]))
}

// TRR PCR: A to the PCR of the level in A.
pub fn pcr_written(level: u16, c: Core, pcrs: &mut Pcrs) -> Core
    requires level_lt_level_count { level < level_count }
    ensures { (b : List ℕ) → length b ≡ register_words → pack level result b pcrs.new
        ≡ with_pcrs (pack level c b pcrs.old)
        (set (set pcrs.old level c.pcr) (pcr_level (pack level c b pcrs.old))
        (pcr_mask (own_a (pack level c b pcrs.old)))) }
{
    pcrs[level as usize] = c.pcr;
    let a = c.file.get(Register::A);
    pcrs[pcr_place(a)] = a / 128 % 16 * 128 + a % 4;
    c.with_pcr(pcrs[level as usize])
}
