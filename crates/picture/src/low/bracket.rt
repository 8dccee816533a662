// A low-delay slice's runs at two indices near a guess, from which its election begins.
ghost use Rattle.std.specs.Prelude.{◌≡◌, ◌≤◌};
ghost use Rattle.picture.specs.Code.Strip.{Small};
ghost use Rattle.picture.specs.Code.Picture.{SliceIn};
ghost use Rattle.picture.specs.Code.Low.{rebuilt_in, Tried};
ghost use Rattle.picture.specs.Code.LowRest.{Known};

use crate::low::trial::{Bracket, Rest, Slice};

// Whether a slice fits at an index, and its runs there.
#[derive(Clone, Copy)]
pub(crate) struct Probe {
    pub fits: bool,
    pub rest: Rest,
}

// Whether slice s takes at most room bits at index q, and its runs there. The rebuilt planes are left as this index
// makes them.
#[inline(always)]
fn probe_at(work: &mut [i64], s: Slice, room: u64, q: u32) -> Probe
    requires { SliceIn s.picture work.old s.k q }
    ensures { (work.new ≡ rebuilt_in work.old s.picture s.k q) × (Small s.picture.front s.picture.end work.new × Known work.new s.picture s.k result.rest) }
{
    s.rebuild_planes(work, q);
    let f = s.first_tallies(work, q);
    let rest = s.rest_of(work, q);
    Probe {
        fits: crate::low::trial::bits_with(f, rest) <= room,
        rest,
    }
}

// The index that is step below q, or above it, from 0 to 127.
fn moved(q: u32, step: u32, down: bool) -> u32
    requires { (q ≤ 127) × (step ≤ 256) }
    ensures { result ≤ 127 }
{
    if down {
        q.saturating_sub(step)
    } else {
        (q + step).min(127)
    }
}

// How far each turn goes: the second as far as the first, since most slices are near their guess.
const STEPS: [u32; 8] = [1, 1, 2, 4, 8, 16, 32, 64];

// Runs at two indices near the guess g, in steps from there down where it fits and up where it does not, until that
// changes, the end is reached or all turns are over. The election's index does not depend on them.
pub(crate) fn bracket_at(work: &mut [i64], s: Slice, room: u64, g: u32) -> Bracket
    requires { SliceIn s.picture work.old s.k 0 × (g ≤ 127) }
    ensures { Tried s.picture s.k work.old work.new × (Known work.new s.picture s.k result.low × Known work.new s.picture s.k result.high) }
{
    let start = probe_at(work, s, room, g);
    let down = start.fits;
    let mut b = Bracket {
        low: start.rest,
        high: start.rest,
    };
    let mut q = g;
    for step in STEPS {
        let next = moved(q, step, down);
        let t = probe_at(work, s, room, next);
        if t.fits {
            b.high = t.rest;
        } else {
            b.low = t.rest;
        }
        if (t.fits != down) | (next == q) {
            break;
        }
        q = next;
    }
    b
}
