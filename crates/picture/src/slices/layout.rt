// Where the subbands of a component stand in the work slice, and what a slice has of each: subband_layout,
// subband_width, subband_height, slice_bounds and slice_quantizers of transform.rs.
ghost use Rattle.std.specs.Prelude.{◌≡◌, cond, ◌+◌, ◌*◌, ◌-◌, ◌/◌, ◌^◌, ◌≤◌, ◌<◌, eqb, leb};
ghost use Rattle.wavelet.specs.Depth.{deepest};
ghost use Rattle.unit.specs.Limits.{slice_limit};
ghost use Rattle.unit.specs.Slices.{bound};
ghost use Rattle.picture.specs.Code.Sides.{size_in};
ghost use Rattle.picture.specs.Code.Layout.{level_of, band_count, band_size, second_of, window_of, run_window, run_strip, LayoutIn, WindowIn, StripIn};
ghost use Rattle.picture.specs.Code.Picture.{slices_in, run_in, colours_in, Arranged};
ghost use Rattle.wavelet.specs.RowCall.{row_limit};
ghost use Rattle.quantiser.specs.Code.Default.{matrix_places};

use crate::front::sizes::Sides;
use crate::slices::strip::{Origin, Strip};

// A component: where its coefficients begin, where its rebuilt level-0 plane begins, and its padded sides.
#[derive(Clone, Copy)]
pub(crate) struct Component {
    pub coefs: usize,
    pub rebuilt: usize,
    pub width: u32,
    pub height: u32,
}

// What all slices share: the depths, the slices across and down, the matrix values, and whether level 0 is predicted.
#[derive(Clone, Copy)]
pub(crate) struct Layout {
    pub depth_ho: u32,
    pub depth: u32,
    pub across: u32,
    pub down: u32,
    pub values: [u32; 25],
    pub predicted: bool,
}

// What a slice has of a subband: the subband's sides, and the slice's rows top to bottom and columns left to right.
#[derive(Clone, Copy)]
pub(crate) struct Window {
    pub width: usize,
    pub height: usize,
    pub top: usize,
    pub bottom: usize,
    pub left: usize,
    pub right: usize,
}

// A picture in the work slice: its layout and its components. Before front stand rebuilt level-0 planes in low delay
// and packed runs in high quality, from front to end the coefficients.
#[derive(Clone, Copy)]
pub(crate) struct Picture {
    pub layout: Layout,
    pub y: Component,
    pub c1: Component,
    pub c2: Component,
    pub front: usize,
    pub end: usize,
}

// A slice's numbers of a component, or of the two colours together, at an index: slice of the layout, and the first and,
// if any, the second component.
#[derive(Clone, Copy)]
pub(crate) struct Run {
    pub layout: Layout,
    pub first: Component,
    pub second: Option<Component>,
    pub slice: u32,
    pub index: u32,
}

impl Picture {
    // Slice k's run of a component at index q.
    #[inline(always)]
    pub(crate) fn run(&self, c: Component, k: u32, q: u32) -> Run
        ensures { result ≡ run_in self.now c k q }
    {
        Run {
            layout: self.layout,
            first: c,
            second: None,
            slice: k,
            index: q,
        }
    }

    // Slice k's run of the two colours together at index q.
    #[inline(always)]
    pub(crate) fn colours(&self, k: u32, q: u32) -> Run
        ensures { result ≡ colours_in self.now k q }
    {
        Run {
            layout: self.layout,
            first: self.c1,
            second: Some(self.c2),
            slice: k,
            index: q,
        }
    }
}

impl Layout {
    // How many subbands there are.
    pub(crate) fn band_count(&self) -> u32
        requires { LayoutIn self.now }
        ensures { result ≡ band_count self.now }
    {
        1 + self.depth_ho + 3 * self.depth
    }
}

// The level of the n-th subband.
#[tactic(auto, unfolding(crate::specs::Code::Layout::level_of))]
fn level_of(depth_ho: u32, n: u32) -> u32
    requires { (depth_ho ≤ deepest) × (n < matrix_places) }
    ensures { result ≡ level_of depth_ho n }
{
    if n <= depth_ho {
        n
    } else {
        depth_ho + 1 + (n - 1 - depth_ho) / 3
    }
}

// The width of the subbands of a level, by the padded width w and the sum t of the depths.
fn subband_width(w: u32, t: u32, level: u32) -> u32
    requires { (t ≤ deepest) × (level ≤ t) }
    ensures { result ≡ cond (eqb level 0) (w / 2 ^ t) (w / 2 ^ (t - level + 1)) }
{
    if level == 0 {
        w >> t
    } else {
        w >> (t - level + 1)
    }
}

// The height of the subbands of a level, by the padded height h and the two depths.
fn subband_height(h: u32, depth_ho: u32, depth: u32, level: u32) -> u32
    requires { (depth_ho + depth ≤ deepest) × (level ≤ depth_ho + depth) }
    ensures { result ≡ cond (leb level depth_ho) (h / 2 ^ depth) (h / 2 ^ (depth_ho + depth - level + 1)) }
{
    if level <= depth_ho {
        h >> depth
    } else {
        h >> (depth_ho + depth - level + 1)
    }
}

// The sides of the n-th subband.
fn band_size(l: Layout, c: Component, n: u32) -> Sides
    requires { LayoutIn l × (n < band_count l) }
    ensures { size_in result ≡ band_size l c n }
{
    let level = level_of(l.depth_ho, n);
    Sides {
        width: subband_width(c.width, l.depth_ho + l.depth, level),
        height: subband_height(c.height, l.depth_ho, l.depth, level),
    }
}

// Where part i of a side w cut into n parts begins.
fn bound(n: u32, w: u32, i: u32) -> usize
    requires { (1 ≤ n) × ((w ≤ row_limit) × (i ≤ row_limit)) }
    ensures { result ≡ bound n w i }
{
    w as usize * i as usize / n as usize
}

// What slice k has of the n-th subband.
#[tactic(auto, unfolding(crate::specs::Code::Layout::window_of))]
pub(crate) fn window_at(l: Layout, c: Component, n: u32, k: u32) -> Window
    requires { WindowIn l c n k }
    ensures { result ≡ window_of l c n k }
{
    let z = band_size(l, c, n);
    let y = k / l.across;
    let x = k % l.across;
    Window {
        width: z.width as usize,
        height: z.height as usize,
        top: bound(l.down, z.height, y),
        bottom: bound(l.down, z.height, y + 1),
        left: bound(l.across, z.width, x),
        right: bound(l.across, z.width, x + 1),
    }
}

impl Run {
    // What its slice has of the first subband.
    pub(crate) fn first_window(&self) -> Window
        requires { WindowIn self.now.layout self.now.first 0 self.now.slice }
        ensures { result ≡ run_window self.now 0 }
    {
        window_at(self.layout, self.first, 0, self.slice)
    }

    // What its slice has of the n-th subband, by what it has of the subband before, v, or for the first one its own: the
    // subbands of a level are alike.
    pub(crate) fn next_window(&self, n: u32, v: Window) -> Window
        requires { WindowIn self.now.layout self.now.first n self.now.slice × (v ≡ run_window self.now (n - 1)) }
        ensures { result ≡ run_window self.now n }
    {
        let depth_ho = self.layout.depth_ho;
        if n > depth_ho && (n - depth_ho) % 3 != 1 {
            v
        } else {
            window_at(self.layout, self.first, n, self.slice)
        }
    }

    // The strip of the n-th subband, of which its slice has the window v and whose coefficients begin start places
    // behind those of its component.
    #[tactic(auto, unfolding(crate::specs::Code::Layout::strip_of, crate::specs::Code::Layout::window_of))]
    #[inline(always)]
    pub(crate) fn strip_in(&self, n: u32, start: usize, v: Window) -> Strip
        requires { StripIn self.now.layout self.now.first (second_of self.now) n start self.now.slice self.now.index × (v ≡ run_window self.now n) }
        ensures { result ≡ run_strip self.now n start }
    {
        let second = match self.second {
            Some(c) => Some(Origin {
                coefs: c.coefs + start,
                rebuilt: c.rebuilt,
            }),
            None => None,
        };
        let i = self.index.saturating_sub(self.layout.values[n as usize]);
        let factor = quantiser::factors::factor_at(i);
        Strip {
            coefs: self.first.coefs + start,
            rebuilt: self.first.rebuilt,
            second,
            width: v.width,
            height: v.height,
            top: v.top,
            bottom: v.bottom,
            left: v.left,
            right: v.right,
            index: i,
            factor,
            offset: quantiser::factors::offset_by(i, factor),
            predicted: self.layout.predicted & (n == 0),
        }
    }
}

// How many slices there are.
pub(crate) fn slice_count(p: Picture) -> u32
    requires { Arranged p }
    ensures { (result ≡ slices_in p) × (result ≤ slice_limit) }
{
    p.layout.down * p.layout.across
}
