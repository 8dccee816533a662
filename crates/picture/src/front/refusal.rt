// Which rule turns a call away: document 01, "Answers that turn a call away"; document 02, (iii).
ghost use Rattle.std.specs.Prelude.{◌≡◌, map, ◌*◌, ◌≤◌};
ghost use Rattle.refusals.specs.Number.{number_of};
ghost use Rattle.unit.specs.Sizes.{area};
ghost use Rattle.unit.specs.Subbands.{subband_count, padded_area};
ghost use Rattle.unit.specs.Rules.{first};
ghost use Rattle.picture.specs.Code.Rules.{rule_of};
ghost use Rattle.unit.specs.Refusal.{outside, any_above, bad_wavelets, bad_depths, bad_slices, bad_sizes, no_target, bad_index, bad_target, bad_frame, bad_matrix, no_matrix, bad_area, bad_planes, short_work, shape_rules, rate_rules, frame_rules, matrix_rules, memory_rules, refusal_of};
ghost use Rattle.unit.specs.Outcome.{coding_refusal};
ghost use Rattle.picture.specs.Code.Sides.{size_in, Measured, InFrame};
ghost use Rattle.unit.specs.Three.{planes};

use crate::front::sizes::{Sides, colour_size, luma_size, padded_size};
use quantiser::annex_d::default_quant_matrix;
use refusals::Refusal;
use unit::{PictureKind, RateControl, Settings};
use wavelet::depth::too_deep;

// The first rule of 1 to 13 that is broken refuses the call. The rules stand in groups, and each is a function below. A
// new rule goes into its group, here and in `unit`'s Refusal.
pub(crate) fn refusal(
    s: Settings,
    matrix: &[u32],
    y: &[u16],
    c1: &[u16],
    c2: &[u16],
    work: &[i64],
) -> Result<(), Refusal>
    ensures { number_of result ≡ refusal_of s matrix.now (planes y.now c1.now c2.now) work.now }
{
    shape_refusal(s)?;
    rate_refusal(s.kind, s.rate)?;
    frame_refusal(s)?;
    matrix_refusal(s, matrix)?;
    memory_refusal(s, y, c1, c2, work)
}

// The first rule that is decided while coding, and is broken by a unit of n bytes for an output of len bytes: 14, the
// unit is longer than the output, or than 4,294,967,295 bytes.
pub(crate) fn coding_refusal(len: usize, n: u64) -> Result<(), Refusal>
    ensures { number_of result ≡ coding_refusal len n }
{
    first_broken(&[(Refusal::Unit, ((len as u64) < n) | (n > 4294967295))])
}

// The first of these rules, with whether each is broken, that is.
fn first_broken(rules: &[(Refusal, bool)]) -> Result<(), Refusal>
    ensures { number_of result ≡ first (map rule_of rules.now) }
{
    for &(refusal, broken) in rules {
        if broken {
            return Err(refusal);
        }
    }
    Ok(())
}

// Wavelets, depths and slices: rules 1 to 4.
fn shape_refusal(s: Settings) -> Result<(), Refusal>
    ensures { number_of result ≡ first (shape_rules s) }
{
    first_broken(&[
        (Refusal::Wavelets, bad_wavelets(s)),
        (Refusal::Depths, bad_depths(s)),
        (Refusal::Slices, bad_slices(s)),
        (Refusal::Sizes, bad_sizes(s)),
    ])
}

// Kind and rate: rules 5 to 7.
fn rate_refusal(kind: PictureKind, rate: RateControl) -> Result<(), Refusal>
    ensures { number_of result ≡ first (rate_rules kind rate) }
{
    first_broken(&[
        (Refusal::NoTarget, no_target(kind, rate)),
        (Refusal::Index, bad_index(rate)),
        (Refusal::Target, bad_target(rate)),
    ])
}

// The frame and its samples: rule 8.
fn frame_refusal(s: Settings) -> Result<(), Refusal>
    ensures { number_of result ≡ first (frame_rules s) }
{
    first_broken(&[(Refusal::Frame, bad_frame(s))])
}

// The matrix: rules 9 and 10.
fn matrix_refusal(s: Settings, matrix: &[u32]) -> Result<(), Refusal>
    ensures { number_of result ≡ first (matrix_rules s matrix.now) }
{
    first_broken(&[
        (Refusal::Matrix, bad_matrix(s, matrix)),
        (Refusal::NoMatrix, no_matrix(s)),
    ])
}

// The padded area and what is lent: rules 11 to 13.
fn memory_refusal(
    s: Settings,
    y: &[u16],
    c1: &[u16],
    c2: &[u16],
    work: &[i64],
) -> Result<(), Refusal>
    requires { Measured s }
    ensures { number_of result ≡ first (memory_rules s (planes y.now c1.now c2.now) work.now) }
{
    first_broken(&[
        (Refusal::Area, bad_area(s)),
        (Refusal::Planes, bad_planes(s, y, c1, c2)),
        (Refusal::Work, short_work(s, work)),
    ])
}

// Whether n is not from 1 to most.
fn outside(most: u32, n: u32) -> bool
    ensures { result ≡ outside most n }
{
    (n == 0) | (n > most)
}

// Whether rule 1 is broken.
fn bad_wavelets(s: Settings) -> bool
    ensures { result ≡ bad_wavelets s }
{
    (s.wavelet_index > 6) | (s.wavelet_index_ho > 6)
}

// Whether rule 2 is broken.
fn bad_depths(s: Settings) -> bool
    ensures { result ≡ bad_depths s }
{
    too_deep(
        s.wavelet_index,
        s.wavelet_index_ho,
        s.dwt_depth,
        s.dwt_depth_ho,
    )
}

// Whether rule 3 is broken.
fn bad_slices(s: Settings) -> bool
    ensures { result ≡ bad_slices s }
{
    outside(65535, s.slices_x)
        | outside(65535, s.slices_y)
        | (s.slices_x as u64 * s.slices_y as u64 > 1048576)
}

// Whether rule 4 is broken.
fn bad_sizes(s: Settings) -> bool
    ensures { result ≡ bad_sizes s }
{
    outside(65535, s.slice_size_scaler) | (s.slice_prefix_bytes > 255)
}

// Whether rule 5 is broken.
fn no_target(kind: PictureKind, rate: RateControl) -> bool
    ensures { result ≡ no_target kind rate }
{
    matches!(kind, PictureKind::LowDelay) && !matches!(rate, RateControl::PictureBytes(_))
}

// Whether rule 6 is broken.
fn bad_index(rate: RateControl) -> bool
    ensures { result ≡ bad_index rate }
{
    matches!(rate, RateControl::FixedQuantIndex(i) if i > 255)
}

// Whether rule 7 is broken.
fn bad_target(rate: RateControl) -> bool
    ensures { result ≡ bad_target rate }
{
    matches!(rate, RateControl::PictureBytes(n) if n > 1073741824)
}

// Whether rule 8 is broken.
fn bad_frame(s: Settings) -> bool
    ensures { result ≡ bad_frame s }
{
    (s.color_diff_format > 2)
        | (s.picture_coding_mode > 1)
        | outside(65535, s.frame_width)
        | outside(65535, s.frame_height)
        | outside(65535, s.luma_excursion)
        | outside(65535, s.color_diff_excursion)
        | (luma_size(s).area() == 0)
        | (colour_size(s).area() == 0)
}

// Whether a value is above most.
fn any_above(most: u32, values: &[u32]) -> bool
    ensures { result ≡ any_above most values.now }
{
    values.iter().any(|v| *v > most)
}

// How many subbands a component has.
fn subband_count(s: Settings) -> u64
    ensures { result ≡ subband_count s.dwt_depth_ho s.dwt_depth }
{
    1 + s.dwt_depth_ho as u64 + 3 * s.dwt_depth as u64
}

// Whether rule 9 is broken: the matrix is looked at only where a custom one is asked for.
fn bad_matrix(s: Settings, matrix: &[u32]) -> bool
    ensures { result ≡ bad_matrix s matrix.now }
{
    s.custom_matrix && (matrix.len() as u64 != subband_count(s) || any_above(255, matrix))
}

// Whether rule 10 is broken.
fn no_matrix(s: Settings) -> bool
    ensures { result ≡ no_matrix s }
{
    if s.custom_matrix {
        return false;
    }
    default_quant_matrix(
        s.wavelet_index,
        s.wavelet_index_ho,
        s.dwt_depth,
        s.dwt_depth_ho,
    )
    .is_none()
}

// The area of a padded component; rules 2 and 8 bound the depths and the frame.
fn padded_area(s: Settings, z: Sides) -> u64
    requires { Measured s × InFrame s (size_in z) }
    ensures { (result ≡ padded_area s (size_in z)) × (result ≤ 17179869184) }
{
    padded_size(s, z).area()
}

// Whether rule 11 is broken.
fn bad_area(s: Settings) -> bool
    requires { Measured s }
    ensures { result ≡ bad_area s }
{
    padded_area(s, luma_size(s)) > 67108864
}

// Whether rule 12 is broken.
fn bad_planes(s: Settings, y: &[u16], c1: &[u16], c2: &[u16]) -> bool
    ensures { result ≡ bad_planes s (planes y.now c1.now c2.now) }
{
    let luma = luma_size(s).area();
    let colour = colour_size(s).area();
    (y.len() as u64 != luma) | (c1.len() as u64 != colour) | (c2.len() as u64 != colour)
}

// Whether rule 13 is broken.
fn short_work(s: Settings, work: &[i64]) -> bool
    requires { Measured s }
    ensures { result ≡ short_work s work.now }
{
    let luma = padded_area(s, luma_size(s));
    let colour = padded_area(s, colour_size(s));
    (work.len() as u64) < 3 * (luma + colour + colour)
}
