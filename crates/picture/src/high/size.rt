// The bytes of a high-quality slice: what its components need, its size, and its share of the target.
ghost use Rattle.std.specs.Prelude.{◌≡◌, ◌*◌, ◌^◌, ◌≤◌, max};
ghost use Rattle.laws.specs.Ceiling.{ceiling};
ghost use Rattle.unit.specs.HighQuality.{slice_size_by, share_of};
ghost use Rattle.picture.specs.Code.Choice.{needs_by};

use crate::high::plan::Plan;

// The bytes that the components of a slice need.
#[derive(Clone, Copy)]
pub(crate) struct Needs {
    pub y: u64,
    pub c1: u64,
    pub c2: u64,
}

// How many bytes n bits need.
pub(crate) fn need(n: u64) -> u64
    requires { n ≤ 2 ^ 33 }
    ensures { (result ≡ ceiling n 8) × (result ≤ 2 ^ 30) }
{
    n.div_ceil(8)
}

// The bytes that the components need, by their bits.
pub(crate) fn needs_of(y: u64, c1: u64, c2: u64) -> Needs
    requires { (y ≤ 2 ^ 33) × ((c1 ≤ 2 ^ 33) × (c2 ≤ 2 ^ 33)) }
    ensures { (result ≡ needs_by y c1 c2) × ((result.y ≤ 2 ^ 30) × ((result.c1 ≤ 2 ^ 30) × (result.c2 ≤ 2 ^ 30))) }
{
    Needs {
        y: need(y),
        c1: need(c1),
        c2: need(c2),
    }
}

// The largest need, or n where this is larger.
pub(crate) fn largest(z: Needs, n: u64) -> u64
    ensures { result ≡ max (max z.y (max z.c1 z.c2)) n }
{
    z.y.max(z.c1.max(z.c2)).max(n)
}

// n over c, rounded up.
pub(crate) fn scalers(n: u64, c: u32) -> u64
    requires { (n ≤ 2 ^ 30) × ((1 ≤ c) × (c ≤ 2 ^ 24)) }
    ensures { (result ≡ ceiling n c) × (result * c ≤ 2 ^ 31) }
{
    n.div_ceil(c as u64)
}

// The bytes of a slice, by the needs of its components.
pub(crate) fn slice_size(z: Needs, d: Plan) -> u64
    requires { (z.y ≤ 2 ^ 30) × ((z.c1 ≤ 2 ^ 30) × (z.c2 ≤ 2 ^ 30)) }
    ensures { (result ≡ slice_size_by d.terms.prefix d.terms.scaler z.y z.c1 z.c2) × (result ≤ 2 ^ 34) }
{
    let c = d.terms.scaler as u64;
    let y = z.y.next_multiple_of(c);
    let c1 = z.c1.next_multiple_of(c);
    let c2 = z.c2.next_multiple_of(c);
    4 + d.terms.prefix as u64 + (y + c1 + c2)
}

// Slice k's share of n bytes among d slices: the earlier ones are larger by at most one.
pub(crate) fn share_of(n: u64, d: u32, k: u32) -> u64
    requires { (1 ≤ d) × (n ≤ 2 ^ 30) }
    ensures { result ≡ share_of n d k }
{
    let whole = n / d as u64;
    if (k as u64) < n % d as u64 {
        whole + 1
    } else {
        whole
    }
}
