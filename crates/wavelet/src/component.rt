// Components from their samples to their coefficients. What is public is for the layer above.
ghost use Rattle.std.specs.Prelude.{◌≡◌, ◌+◌, ◌*◌, ◌≤◌, ◌++◌, drop};
ghost use Rattle.laws.specs.Code.Window.{put};
ghost use Rattle.laws.specs.Plane.{as_list};
ghost use Rattle.laws.specs.Wrap.{wrap};
ghost use Rattle.wavelet.specs.Planes.{h_pass};
ghost use Rattle.wavelet.specs.Pad.{padded};
ghost use Rattle.wavelet.specs.Code.Component.{component_of, SamplesIn, ComponentIn, ComponentsIn};

use crate::plane::Spot;
pub use crate::shape::{Component, Transform};
use crate::{lift, pad, plane};

// The rows of a component's padded plane: analysed, with the filter's shift, into the scratch.
fn pad_rows(work: &mut [i64], samples: &[u16], c: Component, index: usize)
    requires { SamplesIn c samples.now work.old × (index ≤ 6) }
    ensures { work.new ≡ put 0 (c.ph * c.pw) (as_list c.ph c.pw (h_pass wrap index c.ph c.pw (padded samples.now c.offset c.w c.h))) work.old }
{
    let bits = plane::filter_shift(index);
    for y in 0..c.ph {
        let at = y * c.pw;
        let e = at + c.pw;
        pad::pad_row(&mut work[at..e], samples, c, y, bits);
        lift::analyse(&mut work[at..e], index);
    }
}

// A component, padded and analysed: its coefficients stand off places behind the n of scratch, and nothing else there
// changes. The first level takes the samples; plane::dwt takes its first band through the levels that are left.
pub fn analyse_component(
    work: &mut [i64],
    n: usize,
    off: usize,
    samples: &[u16],
    c: Component,
    t: Transform,
)
    requires { ComponentIn c t samples.now n off work.old }
    ensures { drop n work.new ≡ put off (c.ph * c.pw) (component_of t.ih t.iv t.k t.d samples.now c.offset c.w c.h c.pw c.ph) (drop n work.old) }
{
    let mut s = Spot {
        n,
        off,
        h: c.ph,
        w: c.pw,
    };
    if t.d > 0 {
        pad_rows(work, samples, c, t.ih);
        plane::vh_bands(work, s, t.iv);
        s.h /= 2;
        s.w /= 2;
        let rest = Transform { d: t.d - 1, ..t };
        plane::dwt(work, s, rest);
    } else if t.k > 0 {
        pad_rows(work, samples, c, t.ih);
        plane::h_bands(work, s);
        s.w /= 2;
        let rest = Transform {
            k: t.k - 1,
            d: 0,
            ..t
        };
        plane::dwt(work, s, rest);
    } else {
        let to = n + off;
        let e = to + c.ph * c.pw;
        pad::pad_component(&mut work[to..e], samples, c);
    }
}

// Three components one after the other behind the scratch. The two colours are alike.
pub fn analyse_components(
    work: &mut [i64],
    n: usize,
    y: &[u16],
    c1: &[u16],
    c2: &[u16],
    luma: Component,
    colour: Component,
    t: Transform,
)
    requires { ComponentsIn luma colour t y.now c1.now c2.now n work.old }
    ensures { drop n work.new ≡ component_of t.ih t.iv t.k t.d y.now luma.offset luma.w luma.h luma.pw luma.ph
        ++ component_of t.ih t.iv t.k t.d c1.now colour.offset colour.w colour.h colour.pw colour.ph
        ++ component_of t.ih t.iv t.k t.d c2.now colour.offset colour.w colour.h colour.pw colour.ph
        ++ drop (luma.ph * luma.pw + colour.ph * colour.pw + colour.ph * colour.pw) (drop n work.old) }
{
    let m = luma.ph * luma.pw;
    let e = m + colour.ph * colour.pw;
    analyse_component(work, n, 0, y, luma, t);
    analyse_component(work, n, m, c1, colour, t);
    analyse_component(work, n, e, c2, colour, t);
}
