// The bytes of a low-delay slice, the bits of its luma length, and what is left for numbers.
ghost use Rattle.std.specs.Prelude.{◌≡◌, ◌^◌, ◌≤◌, ◌<◌};
ghost use Rattle.unit.specs.LowDelay.{slice_bytes, length_bits, room_of};

// The bytes of slice k, by numerator n and denominator d.
pub(crate) fn slice_bytes(n: u32, d: u32, k: u32) -> u64
    requires { (1 ≤ d) × ((d ≤ n) × (k < d)) }
    ensures { (result ≡ slice_bytes n d k) × ((1 ≤ result) × (result ≤ n)) }
{
    (k as u64 + 1) * n as u64 / d as u64 - k as u64 * n as u64 / d as u64
}

// How many bits the luma length of a slice of n bytes has.
pub(crate) fn length_bits(n: u64) -> u32
    requires { (1 ≤ n) × (n ≤ 2 ^ 30) }
    ensures { (result ≡ length_bits n) × (result ≤ 33) }
{
    crate::front::sizes::intlog2(8 * n - 7)
}

// How many bits of a slice of n bytes are left for numbers.
pub(crate) fn room_of(n: u64) -> u64
    requires { (1 ≤ n) × (n ≤ 2 ^ 30) }
    ensures { (result ≡ room_of n) × (result ≤ 2 ^ 33) }
{
    8 * n - 7 - length_bits(n) as u64
}
