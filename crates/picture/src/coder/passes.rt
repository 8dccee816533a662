// The passes over a picture's slices: planned, planned by the choices noted, and written, of either kind.
ghost use Rattle.std.specs.Prelude.{◌≡◌, ◌+◌, ◌^◌, ◌≤◌, ◌<◌, length};
ghost use Rattle.laws.specs.Code.Laid.{Lays};
ghost use Rattle.picture.specs.Code.Picture.{slices_in};
ghost use Rattle.picture.specs.Code.Choice.{PlanIn, high_runs};
ghost use Rattle.picture.specs.Code.Passes.{PlansTo};
ghost use Rattle.picture.specs.Code.Notes.{Notes};
ghost use Rattle.picture.specs.Code.Low.{low_runs, work_at, cuts_in, LowIn};

use crate::coder::slice_coder::SliceCoder;
use crate::high::plan::{Plan, Terms};
use crate::slices::layout::{Picture, slice_count};

// Plans all slices from place at on, packs their words and notes their choices.
pub(crate) fn plan_slices(work: &mut [i64], p: Picture, t: Terms, at: usize) -> SliceCoder
    requires { PlanIn p t work.old × (at < 2 ^ 16) }
    ensures { PlansTo work.old p t at (slices_in p) result × Notes work.old p t (slices_in p) work.new }
{
    let d = Plan {
        picture: p,
        terms: t,
    };
    let mut c = SliceCoder::new(at);
    for k in 0..slice_count(p) {
        c = c.plan_hq_slice(work, d, k);
    }
    c
}

// Plans all slices from place at on by the choices noted.
pub(crate) fn plan_noted_slices(work: &mut [i64], p: Picture, t: Terms, at: usize) -> SliceCoder
    requires { PlanIn p t work.old × (Notes work.old p t (slices_in p) work.old × (at < 2 ^ 16)) }
    ensures { PlansTo work.old p t at (slices_in p) result × (work.new ≡ work.old) }
{
    let d = Plan {
        picture: p,
        terms: t,
    };
    let mut c = SliceCoder::new(at);
    for k in 0..slice_count(p) {
        c = c.plan_noted_slice(work, d, k);
    }
    c
}

// Writes all slices from place at on, by the words and the choices that stand in the work slice.
pub(crate) fn put_hq_slices(
    out: &mut [u8],
    at: usize,
    work: &mut [i64],
    p: Picture,
    t: Terms,
) -> SliceCoder
    requires { PlanIn p t work.old × (Notes work.old p t (slices_in p) work.old
        × (at + length (high_runs work.old p t (slices_in p)) ≤ length out.old)) }
    ensures { Lays out.old at (high_runs work.old p t (slices_in p)) out.new result.at × ((result.cut_slices ≡ 0)
        × (work.new ≡ work.old)) }
{
    let d = Plan {
        picture: p,
        terms: t,
    };
    let mut c = SliceCoder::new(at);
    for k in 0u32..slice_count(p) {
        c = c.code_hq_slice(out, work, d, k);
    }
    c
}

// Writes all slices from place at on; n is the numerator.
pub(crate) fn put_ld_slices(
    out: &mut [u8],
    at: usize,
    work: &mut [i64],
    p: Picture,
    n: u32,
) -> SliceCoder
    requires { LowIn p n work.old × (at + n ≤ length out.old) }
    ensures { Lays out.old at (low_runs p n work.old (slices_in p)) out.new result.at
        × ((result.cut_slices ≡ cuts_in p n work.old (slices_in p)) × (work.new ≡ work_at p n work.old (slices_in p))) }
{
    let mut c = SliceCoder::new(at);
    for k in 0..slice_count(p) {
        c = c.code_ld_slice(out, work, p, n, k);
    }
    c
}
