// Whether a low-delay slice fits at an index: its candidate in the work slice, and the bits of its numbers.
ghost use Rattle.std.specs.Prelude.{◌≡◌, ◌&&◌, ◌*◌, ◌≤◌, ◌<◌, leb, ltb};
ghost use Rattle.unit.specs.Limits.{area_limit};
ghost use Rattle.picture.specs.Code.Strip.{Small};
ghost use Rattle.picture.specs.Code.Layout.{run_window, rest_of, Lying};
ghost use Rattle.picture.specs.Code.Picture.{slices_in, SliceIn, Arranged};
ghost use Rattle.picture.specs.Code.Tally.{trimmed_of};
ghost use Rattle.picture.specs.Code.Low.{rebuilt_in, low_fits_in};
ghost use Rattle.picture.specs.Code.LowRest.{windows_of, joined_of, bits_with, FirstOf, Known, Joins};

use crate::slices::layout::{Picture, Run, Window};
use crate::slices::tally::{Tally, Trimmed};

// What a slice has of level 0: of luma, and of each colour.
#[derive(Clone, Copy)]
pub(crate) struct Windows {
    pub luma: Window,
    pub colour: Window,
}

// Slice k of a picture, with what it has of level 0, worked out once for all trials.
#[derive(Clone, Copy)]
pub(crate) struct Slice {
    pub picture: Picture,
    pub k: u32,
    pub windows: Windows,
    ghost is: { windows ≡ windows_of picture k },
}

// The tallies of a slice's level-0 numbers, of luma and of the two colours.
#[derive(Clone, Copy)]
pub(crate) struct First {
    pub luma: Tally,
    pub colour: Tally,
}

// A slice's runs of the subbands behind the first at an index, without trailing zeros: luma, and the two colours.
#[derive(Clone, Copy)]
pub(crate) struct Rest {
    pub index: u32,
    pub luma: Trimmed,
    pub colour: Trimmed,
}

// A slice's runs at two indices: as a rule low did not fit and high did. What is proved needs no such rule, and no
// order.
#[derive(Clone, Copy)]
pub(crate) struct Bracket {
    pub low: Rest,
    pub high: Rest,
}

// A run of the subbands behind the first, without trailing zeros.
fn rest_run(work: &[i64], r: &Run, v: Window) -> Trimmed
    requires { Lying r.now work.now × ((r.now.first.width * r.now.first.height ≤ area_limit) × (v ≡ run_window r.now 0)) }
    ensures { result ≡ trimmed_of (rest_of work.now r.now) }
{
    let none = Tally {
        bits: 0,
        count: 0,
        keep: 0,
    };
    let t = crate::slices::run::rest_tally(work, r, v, none);
    crate::slices::tally::trimmed_of(t)
}

impl Slice {
    // Slice k of picture p.
    pub(crate) fn new(p: Picture, k: u32) -> Slice
        requires { Arranged p × (k < slices_in p) }
        ensures { (result.picture ≡ p) × (result.k ≡ k) }
    {
        Slice {
            picture: p,
            k,
            windows: Windows {
                luma: crate::slices::layout::window_at(p.layout, p.y, 0, k),
                colour: crate::slices::layout::window_at(p.layout, p.c1, 0, k),
            },
        }
    }

    // Its part of the three rebuilt planes, made at index q.
    #[inline(always)]
    pub(crate) fn rebuild_planes(self, work: &mut [i64], q: u32)
        requires { SliceIn self.picture work.old self.k q }
        ensures { (work.new ≡ rebuilt_in work.old self.picture self.k q) × Small self.picture.front self.picture.end work.new }
    {
        let p = &self.picture;
        crate::slices::run::rebuild_run(work, &p.run(p.y, self.k, q), self.windows.luma);
        crate::slices::run::rebuild_run(work, &p.run(p.c1, self.k, q), self.windows.colour);
        crate::slices::run::rebuild_run(work, &p.run(p.c2, self.k, q), self.windows.colour);
    }

    // The tallies of its level-0 numbers at index q, where the planes are rebuilt.
    #[inline(always)]
    pub(crate) fn first_tallies(self, work: &[i64], q: u32) -> First
        requires { SliceIn self.picture work.now self.k q }
        ensures { FirstOf work.now self.picture self.k q result }
    {
        let p = &self.picture;
        First {
            luma: crate::slices::run::first_tally(work, &p.run(p.y, self.k, q), self.windows.luma),
            colour: crate::slices::run::first_tally(
                work,
                &p.colours(self.k, q),
                self.windows.colour,
            ),
        }
    }

    // Its runs of the subbands behind the first at index q. No prediction is in them, so that they do not depend on
    // the rebuilt planes.
    #[inline(always)]
    pub(crate) fn rest_of(self, work: &[i64], q: u32) -> Rest
        requires { SliceIn self.picture work.now self.k q }
        ensures { Known work.now self.picture self.k result × (result.index ≡ q) }
    {
        let p = &self.picture;
        Rest {
            index: q,
            luma: rest_run(work, &p.run(p.y, self.k, q), self.windows.luma),
            colour: rest_run(work, &p.colours(self.k, q), self.windows.colour),
        }
    }

    // Its runs at index q: the known ones r, where they are of this index.
    pub(crate) fn rest_at(self, work: &[i64], q: u32, r: Rest) -> Rest
        requires { SliceIn self.picture work.now self.k q × Known work.now self.picture self.k r }
        ensures { Known work.now self.picture self.k result × (result.index ≡ q) }
    {
        if r.index == q {
            r
        } else {
            self.rest_of(work, q)
        }
    }
}

// The run of the numbers that are tallied in t and of the run r behind them, without trailing zeros.
pub(crate) fn joined(t: Tally, r: Trimmed) -> Trimmed
    requires { Joins t r }
    ensures { result ≡ joined_of t r }
{
    if r.count == 0 {
        crate::slices::tally::trimmed_of(t)
    } else {
        Trimmed {
            count: t.count + r.count,
            bits: t.bits + r.bits,
        }
    }
}

// The bits of a slice whose level-0 numbers are tallied in f, with the runs r behind them.
pub(crate) fn bits_with(f: First, r: Rest) -> u64
    requires { Joins f.luma r.luma × Joins f.colour r.colour }
    ensures { result ≡ bits_with f r }
{
    joined(f.luma, r.luma).bits + joined(f.colour, r.colour).bits
}

// Whether a slice whose level-0 numbers at index q are tallied in f surely fits, since the other numbers at q take no
// more bits than those of r at a lower index.
fn surely_fits(f: First, r: Rest, q: u32, room: u64) -> bool
    requires { Joins f.luma r.luma × Joins f.colour r.colour }
    ensures { result ≡ (leb r.index q && leb (bits_with f r) room) }
{
    r.index <= q && bits_with(f, r) <= room
}

// Whether a slice whose level-0 numbers at index q are tallied in f surely does not fit, since the other numbers at q
// take no fewer bits than those of r at a higher index.
fn never_fits(f: First, r: Rest, q: u32, room: u64) -> bool
    requires { Joins f.luma r.luma × Joins f.colour r.colour }
    ensures { result ≡ (leb q r.index && ltb room (bits_with f r)) }
{
    q <= r.index && bits_with(f, r) > room
}

impl Bracket {
    // Whether slice s takes at most room bits at index q. The runs at q take the place of those on its side where they
    // had to be worked out. The rebuilt planes are left as this index makes them.
    pub(crate) fn fits(&mut self, work: &mut [i64], s: Slice, room: u64, q: u32) -> bool
        requires { SliceIn s.picture work.old s.k q × (Known work.old s.picture s.k self.old.low × Known work.old s.picture s.k self.old.high) }
        ensures { (result ≡ low_fits_in work.old s.picture room s.k q) × ((work.new ≡ rebuilt_in work.old s.picture s.k q)
            × (Small s.picture.front s.picture.end work.new
            × (Known work.new s.picture s.k self.new.low × Known work.new s.picture s.k self.new.high))) }
    {
        s.rebuild_planes(work, q);
        let f = s.first_tallies(work, q);
        if surely_fits(f, self.low, q, room) | surely_fits(f, self.high, q, room) {
            return true;
        }
        if never_fits(f, self.low, q, room) | never_fits(f, self.high, q, room) {
            return false;
        }
        let r = s.rest_of(work, q);
        if bits_with(f, r) <= room {
            self.high = r;
            true
        } else {
            self.low = r;
            false
        }
    }
}
