// The election of a low-delay slice's index.
ghost use Rattle.std.specs.Prelude.{◌≡◌, ◌≤◌};
ghost use Rattle.unit.specs.declared.PictureKind.TheVariants.{LowDelay};
ghost use Rattle.unit.specs.Limits.{last_index};
ghost use Rattle.unit.specs.Elect.{elect};
ghost use Rattle.picture.specs.Code.Picture.{SliceIn};
ghost use Rattle.picture.specs.Code.Low.{low_fits_in, Tried};
ghost use Rattle.picture.specs.Code.LowRest.{Known};

use crate::low::trial::{Rest, Slice};
use crate::slices::search::Range;

// The elected index, and the slice's runs at an index.
#[derive(Clone, Copy)]
pub(crate) struct Elected {
    pub index: u32,
    pub rest: Rest,
}

// The election from lo to 127: its index, and runs at an index. The bracket begins at the guess g. The last index that
// was tried need not be the elected one.
pub(crate) fn elect_qindex(work: &mut [i64], s: Slice, room: u64, lo: u32, g: u32) -> Elected
    requires { SliceIn s.picture work.old s.k 0 × ((lo ≤ last_index LowDelay) × (g ≤ 127)) }
    ensures { (result.index ≡ elect lo (last_index LowDelay) (low_fits_in work.old s.picture room s.k)) × ((result.index ≤ 127)
        × (Tried s.picture s.k work.old work.new × Known work.new s.picture s.k result.rest)) }
{
    let mut b = crate::low::bracket::bracket_at(work, s, room, g);
    let mut r = Range { lo, hi: 127 };
    while r.lo < r.hi {
        let mid = crate::slices::search::middle(r);
        let fits = b.fits(work, s, room, mid);
        r = crate::slices::search::narrowed(r, mid, fits);
    }
    Elected {
        index: r.lo,
        rest: b.high,
    }
}
