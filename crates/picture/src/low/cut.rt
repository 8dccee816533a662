// The runs of a low-delay slice that are written: cut where they do not fit.
ghost use Rattle.std.specs.Prelude.{◌≡◌, ◌+◌, ◌<◌};
ghost use Rattle.unit.specs.Trim.{trimmed_cost};
ghost use Rattle.picture.specs.Code.Picture.{SliceIn};
ghost use Rattle.picture.specs.Code.Low.{luma_in, colour_in, KeptOf, Shorter};
ghost use Rattle.picture.specs.Code.LowRest.{Known};

use crate::low::trial::{Rest, Slice};
use crate::slices::cost::Cost;
use crate::slices::tally::Trimmed;

// The runs that are written, of luma and of the colours; cut is set where a number that is not 0 is left out.
#[derive(Clone, Copy)]
pub(crate) struct Kept {
    pub luma: Trimmed,
    pub colour: Trimmed,
    pub cut: bool,
}

// The shorter one of the kept run and the longest run that fits.
fn shorter(c: Cost) -> Trimmed
    ensures { Shorter c result }
{
    if c.fit <= c.keep {
        Trimmed {
            count: c.fit,
            bits: c.fit_bits,
        }
    } else {
        Trimmed {
            count: c.keep,
            bits: c.kept_bits,
        }
    }
}

// The cut of a slice that does not fit: the longest luma run that fits, then the longest colour run in the bits left.
fn cut(work: &[i64], s: Slice, room: u64, q: u32) -> Kept
    requires { SliceIn s.picture work.now s.k q
        × (room < trimmed_cost (luma_in work.now s.picture s.k q) + trimmed_cost (colour_in work.now s.picture s.k q)) }
    ensures { KeptOf room (luma_in work.now s.picture s.k q) (colour_in work.now s.picture s.k q) result }
{
    let p = s.picture;
    let none = crate::slices::cost::no_cost(room);
    let y = shorter(crate::slices::run::cost_run(work, &p.run(p.y, s.k, q), none));
    let none = crate::slices::cost::no_cost(room - y.bits);
    let c = shorter(crate::slices::run::cost_run(work, &p.colours(s.k, q), none));
    Kept {
        luma: y,
        colour: c,
        cut: true,
    }
}

// The runs that are written in room bits: all but trailing zeros where that fits, else a cut. The runs behind level 0
// are r.
pub(crate) fn kept_runs(work: &[i64], s: Slice, room: u64, q: u32, r: Rest) -> Kept
    requires { SliceIn s.picture work.now s.k q × (Known work.now s.picture s.k r × (r.index ≡ q)) }
    ensures { KeptOf room (luma_in work.now s.picture s.k q) (colour_in work.now s.picture s.k q) result }
{
    let f = s.first_tallies(work, q);
    let y = crate::low::trial::joined(f.luma, r.luma);
    let c = crate::low::trial::joined(f.colour, r.colour);
    if y.bits + c.bits <= room {
        Kept {
            luma: y,
            colour: c,
            cut: false,
        }
    } else {
        cut(work, s, room, q)
    }
}
