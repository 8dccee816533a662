// The picture in its work slice, from samples to coefficients.
ghost use Rattle.std.specs.Prelude.{◌≡◌, ◌+◌, ◌≤◌, ◌^◌, length};
ghost use Rattle.unit.specs.Limits.{side_limit};
ghost use Rattle.unit.specs.Sizes.{offset_of, intlog2};
ghost use Rattle.unit.specs.Three.{planes};
ghost use Rattle.picture.specs.Code.Matrix.{lent_in};
ghost use Rattle.picture.specs.Code.Analysed.{is_low, layout_of, picture_of, Called, Ready, Analysed};

use crate::front::matrix::Call;
use crate::front::sizes::{Sides, colour_size, intlog2, luma_size, padded_size};
use crate::slices::layout::{Component, Layout, Picture};
use unit::{PictureKind, Settings};
use wavelet::component::{Transform, analyse_components};

// Whether level 0 is predicted.
fn is_low(kind: PictureKind) -> bool
    ensures { result ≡ is_low kind }
{
    matches!(kind, PictureKind::LowDelay)
}

// The layout of a picture: what all slices share.
fn layout_of(call: Call) -> Layout
    ensures { result ≡ layout_of call.settings (lent_in call.matrix) }
{
    let s = call.settings;
    let values = call.matrix.values;
    Layout {
        depth_ho: s.dwt_depth_ho,
        depth: s.dwt_depth,
        across: s.slices_x,
        down: s.slices_y,
        values,
        predicted: is_low(s.kind),
    }
}

// A component of padded sides z.
fn component_at(z: Sides, coefs: usize, rebuilt: usize) -> Component
    ensures { (result.coefs ≡ coefs) × ((result.rebuilt ≡ rebuilt) × ((result.width ≡ z.width) × (result.height ≡ z.height))) }
{
    Component {
        coefs,
        rebuilt,
        width: z.width,
        height: z.height,
    }
}

// Where a picture stands in the work slice: luma and the two colours one after the other, rebuilt planes as well as
// coefficients.
pub(crate) fn picture_of(call: Call) -> Picture
    requires { Called call.settings (lent_in call.matrix) }
    ensures { result ≡ picture_of call.settings (lent_in call.matrix) }
{
    let s = call.settings;
    let z = padded_size(s, luma_size(s));
    let c = padded_size(s, colour_size(s));
    let k = z.area() as usize;
    let n = c.area() as usize;
    let front = k + n + n;
    let layout = layout_of(call);
    let y = component_at(z, front, 0);
    let c1 = component_at(c, front + k, k);
    let c2 = component_at(c, front + (k + n), k + n);
    Picture {
        layout,
        y,
        c1,
        c2,
        front,
        end: front + front,
    }
}

// The offset of samples of an excursion.
fn offset_of(excursion: u32) -> u16
    requires { (1 ≤ excursion) × (excursion ≤ side_limit) }
    ensures { (result ≡ offset_of (intlog2 (excursion + 1))) × (result ≤ 2 ^ 15) }
{
    let d = intlog2(excursion as u64 + 1);
    1u16 << (d - 1)
}

// A component of sides z, padded sides q and an excursion, as the layer below takes it.
fn component_of(z: Sides, q: Sides, excursion: u32) -> wavelet::component::Component
    requires { (1 ≤ excursion) × (excursion ≤ side_limit) }
    ensures { (result.w ≡ z.width) × ((result.h ≡ z.height) × ((result.pw ≡ q.width) × ((result.ph ≡ q.height)
        × ((result.offset ≡ offset_of (intlog2 (excursion + 1))) × (result.offset ≤ 2 ^ 15))))) }
{
    wavelet::component::Component {
        w: z.width as usize,
        h: z.height as usize,
        pw: q.width as usize,
        ph: q.height as usize,
        offset: offset_of(excursion),
    }
}

// The three components, padded and analysed behind a front of the sum of their areas, which is scratch and then
// cleared.
pub(crate) fn analyse(work: &mut [i64], s: Settings, y: &[u16], c1: &[u16], c2: &[u16])
    requires { Ready s (planes y.now c1.now c2.now) work.old }
    ensures { Analysed s (planes y.now c1.now c2.now) work.new × (length work.new ≡ length work.old) }
{
    let l = luma_size(s);
    let c = colour_size(s);
    let luma = component_of(l, padded_size(s, l), s.luma_excursion);
    let colour = component_of(c, padded_size(s, c), s.color_diff_excursion);
    let front = luma.pw * luma.ph + colour.pw * colour.ph + colour.pw * colour.ph;
    let t = Transform {
        k: s.dwt_depth_ho,
        d: s.dwt_depth,
        ih: s.wavelet_index_ho as usize,
        iv: s.wavelet_index as usize,
    };
    analyse_components(work, front, y, c1, c2, luma, colour, t);
    work[..front].fill(0);
}
