// Whole numbers of fields in two's complement, and the low bits of whole numbers.
ghost use Rattle.std.specs.Prelude.{◌≡◌, ◌^◌, ◌<◌, ◌≤◌};
ghost use Rattle.isa.specs.Flags.{signed_of, bits_of};

// The signed meaning of a field of k bits.
pub fn signed(k: u32, n: u32) -> i64
    requires k_nonzero { (0 < k) × (k ≤ 32) }
    requires n_bound { n < 2 ^ k }
    ensures { result ≡ signed_of k n }
{
    let half = 1u32 << (k - 1);
    if n < half {
        i64::from(n)
    } else {
        i64::from(n - half) - i64::from(half)
    }
}

// The low 16 bits.
pub fn word(z: i64) -> u16
    ensures { result ≡ bits_of 16 z }
{
    z.rem_euclid(0x1_0000) as u16
}

// The low 32 bits.
pub fn double_word(z: i64) -> u32
    ensures { result ≡ bits_of 32 z }
{
    z.rem_euclid(0x1_0000_0000) as u32
}
