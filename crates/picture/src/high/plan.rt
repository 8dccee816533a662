// What the slices of a high-quality plan share.
ghost use Rattle.std.specs.Prelude.{◌≡◌, false};
ghost use Rattle.picture.specs.Code.Picture.{Arranged};
ghost use Rattle.picture.specs.Code.Choice.{TermsIn, terms_once};

use crate::slices::layout::Picture;
use unit::RateControl;

// What all slices share: the rate, prefix bytes, the scaler, the bytes for all slices, and the index where elections
// begin.
#[derive(Clone, Copy)]
pub(crate) struct Terms {
    pub rate: RateControl,
    pub prefix: u32,
    pub scaler: u32,
    pub bytes: u64,
    pub lo: u32,
}

// A picture without prediction, and the terms by which its slices are planned.
#[derive(Clone, Copy)]
pub(crate) struct Plan {
    pub picture: Picture,
    pub terms: Terms,
    ghost arranged: { Arranged picture },
    ghost plain: { picture.layout.predicted ≡ false },
    ghost fits: { TermsIn terms } by { terms_once terms },
}
