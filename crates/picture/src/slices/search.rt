// The range of indices that an election still has, and its steps.
ghost use Rattle.std.specs.Prelude.{◌≡◌, ◌+◌, ◌*◌, ◌/◌, ◌≤◌, min};
ghost use Rattle.picture.specs.Code.Search.{half_of};

// A range of indices.
#[derive(Clone, Copy, PartialEq, Eq)]
pub(crate) struct Range {
    pub lo: u32,
    pub hi: u32,
}

// The range after a trial at mid: a fit sends the search to mid and below, and no fit above it.
pub(crate) fn narrowed(r: Range, mid: u32, fits: bool) -> Range
    requires { mid ≤ 255 }
    ensures { result ≡ half_of r mid fits }
{
    if fits {
        Range { hi: mid, ..r }
    } else {
        Range { lo: mid + 1, ..r }
    }
}

// Twice the step, at most 256.
pub(crate) fn wider(step: u32) -> u32
    requires { (1 ≤ step) × (step ≤ 256) }
    ensures { (result ≡ min (2 * step) 256) × ((1 ≤ result) × (result ≤ 256)) }
{
    (2 * step).min(256)
}

// The middle of a range, rounded down.
pub(crate) fn middle(r: Range) -> u32
    ensures { result ≡ (r.lo + r.hi) / 2 }
{
    r.lo.midpoint(r.hi)
}
