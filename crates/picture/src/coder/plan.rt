// The planning pass of high quality, and the scaler that it ends with.
ghost use Rattle.std.specs.Prelude.{◌≡◌, ◌^◌, ◌≤◌, ◌<◌};
ghost use Rattle.picture.specs.Code.Matrix.{lent_in};
ghost use Rattle.picture.specs.Code.Head.{slices_from};
ghost use Rattle.picture.specs.Code.Picture.{slices_in};
ghost use Rattle.picture.specs.Code.Choice.{terms_of, is_target};
ghost use Rattle.picture.specs.Code.Passes.{PlansTo, HighIn, Settles};
ghost use Rattle.picture.specs.Code.Notes.{Notes, Standing};

use crate::coder::passes::{plan_noted_slices, plan_slices};
use crate::coder::slice_coder::SliceCoder;
use crate::front::header::{SliceParameters, overhead, target_of};
use crate::front::matrix::Call;
use crate::high::plan::Terms;
use crate::slices::layout::Picture;
use unit::RateControl;

// The final scaler, and where the unit ends.
#[derive(Clone, Copy)]
pub(crate) struct Settled {
    pub scaler: u32,
    pub end: usize,
}

// Where the slices begin with scaler c.
fn slices_from(call: Call, c: u32) -> u64
    ensures { (result ≡ slices_from call c) × (result < 2 ^ 16) }
{
    let p = SliceParameters::HighQuality(call.settings.slice_prefix_bytes, c);
    overhead(call, p)
}

// The terms of a call with scaler c: the bytes for all slices are the target less overhead, or 0 below that.
pub(crate) fn terms_of(call: Call, c: u32) -> Terms
    ensures { result ≡ terms_of call.settings (lent_in call.matrix) c }
{
    let s = call.settings;
    let target = target_of(s.rate) as u64;
    Terms {
        rate: s.rate,
        prefix: s.slice_prefix_bytes,
        scaler: c,
        bytes: target.saturating_sub(slices_from(call, c)),
        lo: 0,
    }
}

// The planning pass with scaler c.
fn plan_picture(call: Call, work: &mut [i64], p: Picture, c: u32) -> SliceCoder
    requires { HighIn call.settings p work.old × ((1 ≤ c) × (c ≤ 2 ^ 24)) }
    ensures { PlansTo work.old p (terms_of call.settings (lent_in call.matrix) c)
        (slices_from call c) (slices_in p) result
        × Notes work.old p (terms_of call.settings (lent_in call.matrix) c) (slices_in p) work.new }
{
    let t = terms_of(call, c);
    let at = slices_from(call, c);
    plan_slices(work, p, t, at as usize)
}

// Whether there is a byte target.
fn is_target(r: RateControl) -> bool
    ensures { result ≡ is_target r }
{
    matches!(r, RateControl::PictureBytes(_))
}

// The planning pass with scaler c after another, whose choices are noted. Without a byte target these are the choices
// for scaler c too.
fn plan_again(call: Call, work: &mut [i64], p: Picture, c: u32) -> SliceCoder
    requires { HighIn call.settings p work.old × (((1 ≤ c) × (c ≤ 2 ^ 24))
        × Standing call.settings p work.old) }
    ensures { PlansTo work.old p (terms_of call.settings (lent_in call.matrix) c)
        (slices_from call c) (slices_in p) result
        × Notes work.old p (terms_of call.settings (lent_in call.matrix) c) (slices_in p) work.new }
{
    if is_target(call.settings.rate) {
        return plan_picture(call, work, p, c);
    }
    let t = terms_of(call, c);
    let at = slices_from(call, c);
    plan_noted_slices(work, p, t, at as usize)
}

// The scaler that planning ends with: while a component needs more than 255 scalers, the scaler becomes the largest
// need over 255, rounded up. The words of the last pass are packed, and its choices noted.
pub(crate) fn settle(call: Call, work: &mut [i64], p: Picture) -> Settled
    requires { HighIn call.settings p work.old }
    ensures { Settles work.old p call.settings (lent_in call.matrix) result
        × Notes work.old p (terms_of call.settings (lent_in call.matrix) result.scaler) (slices_in p) work.new }
{
    let mut c = call.settings.slice_size_scaler;
    let mut r = plan_picture(call, work, p, c);
    while r.largest > 255 * c as u64 {
        c = r.largest.div_ceil(255) as u32;
        r = plan_again(call, work, p, c);
    }
    Settled {
        scaler: c,
        end: r.at,
    }
}
