// Cases of the row call and of whole transforms.
ghost use Rattle.std.specs.Prelude.{◌≡◌, ◌+◌, ◌*◌, ◌≤◌, ◌<◌, length};
ghost use Rattle.replay.specs.Code.Planes.{SmallSides, Full, SidesFit};

use crate::case::{self, Judged, Malformed};
use refusals::number_of;
use wavelet::component::{Component, Transform};

// The numbers are the words, as of reads them.
fn load<T: Copy, F: Fn(u64) -> T>(numbers: &mut [T], w: &[u64], of: F)
    requires { (length numbers.old ≡ length w.now) × F.IsAlwaysCallable of }
    ensures { length numbers.new ≡ length numbers.old }
{
    for i in 0..numbers.len() {
        numbers[i] = of(w[i]);
    }
}

// Whether the words are the row's numbers.
fn same_row(row: &[i64], w: &[u64]) -> bool
    requires { length row.now ≡ length w.now }
{
    row.iter().zip(w).all(|(x, u)| *x == u.cast_signed())
}

// Whether the row of the first words is analysed to the words behind it, with the recorded answer.
fn run_row(row: &mut [i64], index: u32, answer: u64, w: &[u64]) -> bool
    requires { 2 * length row.old ≡ length w.now }
{
    let (before, after) = w.split_at(row.len());
    load(row, before, |u| u.cast_signed());
    u64::from(number_of(wavelet::oned_analysis(row, index))) == answer && same_row(row, after)
}

pub(crate) fn row(w: &[u64]) -> Judged {
    let [index, answer, n, rows @ ..] = w else {
        return Err(Malformed);
    };
    let n = *n as usize;
    if n > 4096 || rows.len() != 2 * n {
        return Err(Malformed);
    }
    let mut numbers = [0i64; 4096];
    Ok(run_row(&mut numbers[..n], u32::try_from(*index)?, *answer, rows))
}

// A row of zeros that may be too long.
pub(crate) fn long_row(w: &[u64]) -> Judged {
    let [index, n, answer] = w else {
        return Err(Malformed);
    };
    let n = *n as usize;
    if n > 65540 {
        return Err(Malformed);
    }
    let mut numbers = [0i64; 65540];
    let a = wavelet::oned_analysis(&mut numbers[..n], u32::try_from(*index)?);
    Ok(u64::from(number_of(a)) == *answer)
}

// Whether the transform's coefficients are the words behind the samples. They stand behind m numbers of scratch.
fn run_planes(work: &mut [i64], samples: &mut [u16], w: &[u64], c: Component, t: Transform) -> bool
    requires { SidesFit c t (length samples.old) work.old × (length samples.old + c.ph * c.pw ≡ length w.now) }
{
    let (first, coefficients) = w.split_at(samples.len());
    load(samples, first, |u| (u % 65536) as u16);
    let m = c.ph * c.pw;
    wavelet::component::analyse_component(work, m, 0, samples, c, t);
    same_row(&work[m..2 * m], coefficients)
}

// The component with its padded sides.
fn full_sides(c: Component, t: Transform) -> Component
    requires { SmallSides c t }
    ensures { Full c t result }
{
    Component {
        pw: wavelet::pad::padded_side(c.w, t.k + t.d),
        ph: wavelet::pad::padded_side(c.h, t.d),
        ..c
    }
}

// A whole transform of a component of small sides: its samples and its coefficients.
fn run_dwt(w: &[u64], small: Component, t: Transform) -> Judged
    requires { SmallSides small t }
{
    let c = full_sides(small, t);
    let m = c.ph * c.pw;
    let n = c.h * c.w;
    if m > 8192 || n > 8192 || w.len() != n + m {
        return Err(Malformed);
    }
    let mut numbers = [0i64; 16384];
    let mut samples = [0u16; 8192];
    Ok(run_planes(&mut numbers, &mut samples[..n], w, c, t))
}

pub(crate) fn dwt(w: &[u64]) -> Judged {
    let [iv, ih, d, k, width, height, bits, planes @ ..] = w else {
        return Err(Malformed);
    };
    let t = Transform {
        k: case::within(*k, 0, 5)?,
        d: case::within(*d, 0, 5)?,
        ih: case::within(*ih, 0, 6)? as usize,
        iv: case::within(*iv, 0, 6)? as usize,
    };
    let c = Component {
        w: case::within(*width, 1, 256)? as usize,
        h: case::within(*height, 1, 256)? as usize,
        pw: 0,
        ph: 0,
        offset: 1 << (case::within(*bits, 1, 16)? - 1),
    };
    run_dwt(planes, c, t)
}
