// A slice's numbers of all subbands of a component, or of the two colours together.
ghost use Rattle.std.specs.Prelude.{◌≡◌, ◌*◌, ◌-◌, ◌≤◌};
ghost use Rattle.unit.specs.Limits.{area_limit};
ghost use Rattle.picture.specs.Code.Strip.{strip_numbers, rebuilt_strip};
ghost use Rattle.picture.specs.Code.Cost.{added, add_all, Counted, Countable};
ghost use Rattle.picture.specs.Code.Tally.{no_tally, tally_all, Addable};
ghost use Rattle.picture.specs.Code.Layout.{run_window, run_strip, numbers_of, rest_of, Lying};

use crate::slices::cost::Cost;
use crate::slices::counter::Counter;
use crate::slices::layout::{Run, Window};
use crate::slices::tally::Tally;

// t with the numbers of the subbands behind the first added; first is the window of the first one.
fn add_rest<C: Counter>(work: &[i64], r: &Run, first: Window, t: C) -> C
    requires { Lying r.now work.now × (Counted (C.bits t) (C.count t) (2 * (r.now.first.width * r.now.first.height - first.width * first.height)) × (first ≡ run_window r.now 0)) }
    ensures { result ≡ added C.step t (rest_of work.now r.now) }
{
    let mut v = first;
    let mut sum = t;
    let mut start = v.width * v.height;
    for n in 1..r.layout.band_count() {
        v = r.next_window(n, v);
        let s = r.strip_in(n, start, v);
        sum = crate::slices::counter::add_strip(work, s, sum);
        start += s.width * s.height;
    }
    sum
}

// The cost t with the numbers of all subbands added.
pub(crate) fn cost_run(work: &[i64], r: &Run, t: Cost) -> Cost
    requires { Lying r.now work.now × Countable t (2 * (r.now.first.width * r.now.first.height)) }
    ensures { result ≡ add_all t (numbers_of work.now r.now) }
{
    let v = r.first_window();
    let s = r.strip_in(0, 0, v);
    let first = crate::slices::counter::add_strip(work, s, t);
    add_rest(work, r, v, first)
}

// The tally of the numbers of the first subband, of which the slice has the window v.
#[inline(always)]
pub(crate) fn first_tally(work: &[i64], r: &Run, v: Window) -> Tally
    requires { Lying r.now work.now × ((r.now.first.width * r.now.first.height ≤ area_limit) × (v ≡ run_window r.now 0)) }
    ensures { result ≡ tally_all no_tally (strip_numbers work.now (run_strip r.now 0 0)) }
{
    let none = crate::slices::cost::no_cost(0);
    let s = r.strip_in(0, 0, v);
    Tally::from(crate::slices::counter::add_strip(work, s, none))
}

// The tally t with the numbers of the other subbands added; first is the window of the first one.
pub(crate) fn rest_tally(work: &[i64], r: &Run, first: Window, t: Tally) -> Tally
    requires { Lying r.now work.now × (Addable t (2 * (r.now.first.width * r.now.first.height)) × (first ≡ run_window r.now 0)) }
    ensures { result ≡ tally_all t (rest_of work.now r.now) }
{
    add_rest(work, r, first, t)
}

// The slice's part of the rebuilt level-0 plane of the first component, of which it has the window v.
#[inline(always)]
pub(crate) fn rebuild_run(work: &mut [i64], r: &Run, v: Window)
    requires { Lying r.now work.old × (v ≡ run_window r.now 0) }
    ensures { work.new ≡ rebuilt_strip work.old (run_strip r.now 0 0) }
{
    let s = r.strip_in(0, 0, v);
    crate::slices::rebuild::rebuild_strip(work, s);
}
