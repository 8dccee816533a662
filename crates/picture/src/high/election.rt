// The index of a high-quality slice by its size, its share and the election.
ghost use Rattle.std.specs.Prelude.{◌≡◌, ◌*◌, ◌≤◌, ◌<◌};
ghost use Rattle.unit.specs.declared.PictureKind.TheVariants.{HighQuality};
ghost use Rattle.unit.specs.Limits.{area_limit, last_index};
ghost use Rattle.unit.specs.Elect.{elect};
ghost use Rattle.unit.specs.HighQuality.{fits_by};
ghost use Rattle.picture.specs.Code.Strip.{Small};
ghost use Rattle.picture.specs.Code.Layout.{numbers_of, Lying};
ghost use Rattle.picture.specs.Code.Picture.{slices_in, numbers_in, SliceIn};
ghost use Rattle.picture.specs.Code.Tally.{trimmed_of};
ghost use Rattle.picture.specs.Code.Choice.{index_in};

use crate::high::plan::Plan;
use crate::slices::layout::Run;
use crate::slices::search::Range;
use crate::slices::tally::Trimmed;
use unit::RateControl;

// A run without its trailing zeros.
fn trimmed_run(work: &[i64], r: &Run) -> Trimmed
    requires { Lying r.now work.now × (r.now.first.width * r.now.first.height ≤ area_limit) }
    ensures { result ≡ trimmed_of (numbers_of work.now r.now) }
{
    let v = r.first_window();
    let first = crate::slices::run::first_tally(work, r, v);
    let t = crate::slices::run::rest_tally(work, r, v, first);
    crate::slices::tally::trimmed_of(t)
}

// Whether slice k fits its share at index q. Where luma alone does not fit, the colours are not looked at.
fn fits(work: &[i64], d: Plan, share: u64, k: u32, q: u32) -> bool
    requires { SliceIn d.picture work.now k q }
    ensures { result ≡ fits_by d.terms.prefix d.terms.scaler share (numbers_in work.now d.picture k) q }
{
    let p = &d.picture;
    let y = trimmed_run(work, &p.run(p.y, k, q));
    if crate::high::size::slice_size(crate::high::size::needs_of(y.bits, 0, 0), d) > share {
        return false;
    }
    let c1 = trimmed_run(work, &p.run(p.c1, k, q));
    let c2 = trimmed_run(work, &p.run(p.c2, k, q));
    crate::high::size::slice_size(crate::high::size::needs_of(y.bits, c1.bits, c2.bits), d) <= share
}

// An index of the range r, below its end, for a search that began with the range ends: g at first, then in widening
// steps from the end that was moved, and the middle once both were. Any index of the range leads to the same end.
fn next_index(r: Range, ends: Range, g: u32, step: u32) -> u32
    requires { (r.lo < r.hi) × ((r.hi ≤ 255) × ((1 ≤ step) × (step ≤ 256))) }
    ensures { (r.lo ≤ result) × (result < r.hi) }
{
    let last = r.hi - 1;
    if r == ends {
        g.clamp(r.lo, last)
    } else if r.lo == ends.lo {
        r.hi.saturating_sub(step).max(r.lo)
    } else if r.hi == ends.hi {
        last.min(r.lo + step)
    } else {
        crate::slices::search::middle(r)
    }
}

// The election from the terms' first index to 255, from the guess g on. What fits at an index fits at every larger one,
// so that the least index that fits is elected, or 255.
fn elect_qindex(work: &[i64], d: Plan, share: u64, k: u32, g: u32) -> u32
    requires { Small d.picture.front d.picture.end work.now × (k < slices_in d.picture) }
    ensures { result ≡ elect d.terms.lo (last_index HighQuality) (fits_by d.terms.prefix d.terms.scaler share (numbers_in work.now d.picture k)) }
{
    let ends = Range {
        lo: d.terms.lo,
        hi: 255,
    };
    let mut r = ends;
    let mut step = 1;
    while r.lo < r.hi {
        let q = next_index(r, ends, g, step);
        r = crate::slices::search::narrowed(r, q, fits(work, d, share, k, q));
        step = crate::slices::search::wider(step);
    }
    r.hi
}

// The index of slice k: lossless is index 0. The guess g says where an election begins.
pub(crate) fn index_of(work: &[i64], d: Plan, k: u32, g: u32) -> u32
    requires { Small d.picture.front d.picture.end work.now × (k < slices_in d.picture) }
    ensures { (result ≡ index_in work.now d.picture d.terms k) × (result ≤ 255) }
{
    match d.terms.rate {
        RateControl::Lossless => 0,
        RateControl::FixedQuantIndex(q) => q,
        RateControl::PictureBytes(_) => {
            let share = crate::high::size::share_of(
                d.terms.bytes,
                crate::slices::layout::slice_count(d.picture),
                k,
            );
            elect_qindex(work, d, share, k, g)
        }
    }
}
