// Lifting stages (ST 2042-1, 15.4.4.1) and the analysis of a row by all stages of a filter.
ghost use Rattle.std.specs.Prelude.{◌≡◌, ◌+◌, ◌/◌, ◌^◌, ◌<◌, ◌≤◌, length, not, pos, ◌+ℤ◌};
ghost use Rattle.std.specs.Int.Signed.{shr_z};
ghost use Rattle.laws.specs.Wrap.{wrap};
ghost use Rattle.wavelet.specs.Lifting.{within, place, change, lifted};
ghost use Rattle.wavelet.specs.Filters.{filter_of, analysis_by};
ghost use Rattle.wavelet.specs.Code.Table.{stage_of, stage_at};
ghost use Rattle.wavelet.specs.Code.Run.{taps_to, ran, Placed, Moves, TapsIn, RunIn, two_taps, two_places};
ghost use Rattle.wavelet.specs.RowCall.{row_limit};

use crate::arith;
use crate::stage::LiftStage;

// The stages of all filters: those of filter i begin at 2 i.
const STAGES: [LiftStage; 16] = [
    // Table 16
    LiftStage {
        to: 0,
        adds: false,
        shift: 2,
        ahead: 0,
        back: 0,
        count: 2,
        taps: [1, 1, 0, 0, 0, 0, 0, 0],
    },
    LiftStage {
        to: 1,
        adds: true,
        shift: 4,
        ahead: 0,
        back: 1,
        count: 4,
        taps: [-1, 9, 9, -1, 0, 0, 0, 0],
    },
    // Table 17
    LiftStage {
        to: 0,
        adds: false,
        shift: 2,
        ahead: 0,
        back: 0,
        count: 2,
        taps: [1, 1, 0, 0, 0, 0, 0, 0],
    },
    LiftStage {
        to: 1,
        adds: true,
        shift: 1,
        ahead: 0,
        back: 0,
        count: 2,
        taps: [1, 1, 0, 0, 0, 0, 0, 0],
    },
    // Table 18
    LiftStage {
        to: 0,
        adds: false,
        shift: 5,
        ahead: 0,
        back: 1,
        count: 4,
        taps: [-1, 9, 9, -1, 0, 0, 0, 0],
    },
    LiftStage {
        to: 1,
        adds: true,
        shift: 4,
        ahead: 0,
        back: 1,
        count: 4,
        taps: [-1, 9, 9, -1, 0, 0, 0, 0],
    },
    // Table 19
    LiftStage {
        to: 0,
        adds: false,
        shift: 1,
        ahead: 1,
        back: 0,
        count: 1,
        taps: [1, 0, 0, 0, 0, 0, 0, 0],
    },
    LiftStage {
        to: 1,
        adds: true,
        shift: 0,
        ahead: 0,
        back: 0,
        count: 1,
        taps: [1, 0, 0, 0, 0, 0, 0, 0],
    },
    // Table 20
    LiftStage {
        to: 0,
        adds: false,
        shift: 1,
        ahead: 1,
        back: 0,
        count: 1,
        taps: [1, 0, 0, 0, 0, 0, 0, 0],
    },
    LiftStage {
        to: 1,
        adds: true,
        shift: 0,
        ahead: 0,
        back: 0,
        count: 1,
        taps: [1, 0, 0, 0, 0, 0, 0, 0],
    },
    // Table 21
    LiftStage {
        to: 1,
        adds: true,
        shift: 8,
        ahead: 0,
        back: 3,
        count: 8,
        taps: [-2, 10, -25, 81, 81, -25, 10, -2],
    },
    LiftStage {
        to: 0,
        adds: false,
        shift: 8,
        ahead: 0,
        back: 3,
        count: 8,
        taps: [-8, 21, -46, 161, 161, -46, 21, -8],
    },
    // Table 22
    LiftStage {
        to: 0,
        adds: false,
        shift: 12,
        ahead: 0,
        back: 0,
        count: 2,
        taps: [1817, 1817, 0, 0, 0, 0, 0, 0],
    },
    LiftStage {
        to: 1,
        adds: false,
        shift: 12,
        ahead: 0,
        back: 0,
        count: 2,
        taps: [3616, 3616, 0, 0, 0, 0, 0, 0],
    },
    LiftStage {
        to: 0,
        adds: true,
        shift: 12,
        ahead: 0,
        back: 0,
        count: 2,
        taps: [217, 217, 0, 0, 0, 0, 0, 0],
    },
    LiftStage {
        to: 1,
        adds: true,
        shift: 12,
        ahead: 0,
        back: 0,
        count: 2,
        taps: [6497, 6497, 0, 0, 0, 0, 0, 0],
    },
];

// Stage j of the table.
pub(crate) fn stage(j: usize) -> LiftStage
    requires { j < 16 }
    ensures { stage_of result ≡ stage_at j }
{
    STAGES[j]
}

// A place near c of the other parity than to, kept inside a row of len.
#[tactic(auto, unfolding(crate::specs::Lifting::within))]
fn within(to: usize, len: usize, c: usize) -> usize
    requires { (to ≤ 1) × ((1 < len) × (c < 2 ^ 32)) }
    ensures { result ≡ within to len c }
{
    let e = 1 - to;
    (2 * c).saturating_sub(e).min(len - 1 - to).max(e)
}

// The place that tap k reads for update n of a row of len.
fn place(s: LiftStage, len: usize, n: usize, k: usize) -> usize
    requires { (len ≤ row_limit) × ((n < len / 2) × (k < 8)) }
    ensures { (result ≡ place (stage_of s) len n k) × (result < len) }
{
    let c = (n + k + s.ahead).saturating_sub(s.back);
    within(s.to, len, c)
}

// The places that the taps read for update n, each times w.
pub(crate) fn places(s: LiftStage, len: usize, n: usize, w: usize) -> [usize; 8]
    requires { (len ≤ row_limit) × ((n < len / 2) × (w ≤ row_limit)) }
    ensures { Placed (stage_of s) len n w result }
{
    let mut o = [0usize; 8];
    for k in 0..8 {
        o[k] = place(s, len, n, k) * w;
    }
    o
}

// How many updates from n on read places that move on by 2 with each: in the middle of a row, where no place is
// clamped, all up to its end.
fn run_length(s: LiftStage, len: usize, n: usize) -> usize
    requires { (len ≤ row_limit) × (n < len / 2) }
    ensures { Moves (stage_of s) len n result }
{
    if n + s.ahead <= s.back {
        return 1;
    }
    let half = len / 2;
    let end = (half + s.back + 1).saturating_sub(s.count + s.ahead);
    half.min(end).saturating_sub(n).max(1)
}

// The sum of the first N taps, their places moved by x. The compiler knows N, and makes no loop of it.
fn sum_of<const N: usize>(a: &[i64], s: LiftStage, o: [usize; 8], x: usize) -> i64
    requires { TapsIn a.now s.count o x × (N ≤ s.count) }
    ensures { result ≡ taps_to s.taps o x a.now N }
{
    let mut sum = 0i64;
    for k in 0..N {
        sum = sum.wrapping_add(arith::wrapping_mul_i64(s.taps[k], a[o[k] + x]));
    }
    sum
}

// The sum of all taps, their places moved by x.
fn tap_sum(a: &[i64], s: LiftStage, o: [usize; 8], x: usize) -> i64
    requires { TapsIn a.now s.count o x }
    ensures { result ≡ taps_to s.taps o x a.now s.count }
{
    match s.count {
        1 => sum_of::<1>(a, s, o, x),
        2 => sum_of::<2>(a, s, o, x),
        4 => sum_of::<4>(a, s, o, x),
        _ => sum_of::<8>(a, s, o, x),
    }
}

// Half of 2 ^ shift, the rounding constant.
fn rounding(shift: u32) -> i64
    requires { shift ≤ 12 }
    ensures { result ≡ pos (2 ^ shift / 2) }
{
    ((1u64 << shift) / 2) as i64
}

// A sum, rounded and shifted.
fn scaled(sum: i64, shift: u32) -> i64
    requires { shift ≤ 12 }
    ensures { result ≡ shr_z (wrap (sum +ℤ pos (2 ^ shift / 2))) (2 ^ shift) }
{
    sum.wrapping_add(rounding(shift)) >> shift
}

// x with d added or taken away.
fn change(plus: bool, x: i64, d: i64) -> i64
    ensures { result ≡ change wrap plus x d }
{
    if plus {
        x.wrapping_add(d)
    } else {
        x.wrapping_sub(d)
    }
}

// The updates of run, whatever the taps.
fn run_taps(
    a: &mut [i64],
    s: LiftStage,
    plus: bool,
    o: [usize; 8],
    p: usize,
    count: usize,
    step: usize,
)
    requires { RunIn a.old s.count o p count step }
    ensures { a.new ≡ ran (stage_of s) plus o p step count a.old }
{
    for i in 0..count {
        let x = step * i;
        let d = scaled(tap_sum(a, s, o, x), s.shift);
        let k = p + x;
        a[k] = change(plus, a[k], d);
    }
}

// The updates of run for two taps, both t, that read the places i and j: one multiplication, of the sum, and no array
// of places.
fn run_two(
    a: &mut [i64],
    plus: bool,
    t: i64,
    shift: u32,
    i: usize,
    j: usize,
    p: usize,
    count: usize,
    step: usize,
)
    requires { RunIn a.old 2 (two_places i j) p count step × (shift ≤ 12) }
    ensures { a.new ≡ ran (two_taps t shift) plus (two_places i j) p step count a.old }
{
    for n in 0..count {
        let x = step * n;
        let u = a[i + x];
        let v = a[j + x];
        let d = scaled(arith::wrapping_mul_i64(t, u.wrapping_add(v)), shift);
        let k = p + x;
        a[k] = change(plus, a[k], d);
    }
}

// count updates, of the places p, p + step, .., whose taps read the places o, moved on likewise. No place is read after
// it is updated.
pub(crate) fn run(
    a: &mut [i64],
    s: LiftStage,
    plus: bool,
    o: [usize; 8],
    p: usize,
    count: usize,
    step: usize,
)
    requires { RunIn a.old s.count o p count step }
    ensures { a.new ≡ ran (stage_of s) plus o p step count a.old }
{
    let t = s.taps[0];
    if s.count == 2 && t == s.taps[1] {
        // the literal lets the compiler drop the multiplication
        if t == 1 {
            run_two(a, plus, 1, s.shift, o[0], o[1], p, count, step);
        } else {
            run_two(a, plus, t, s.shift, o[0], o[1], p, count, step);
        }
    } else {
        run_taps(a, s, plus, o, p, count, step);
    }
}

// One lifting stage of a row, undone.
fn lift(a: &mut [i64], s: LiftStage)
    requires { length a.old ≤ row_limit }
    ensures { a.new ≡ lifted wrap (stage_of s) (not s.adds) (length a.old / 2) a.old }
{
    let len = a.len();
    let half = len / 2;
    let mut n = 0;
    // a step is as long as run_length says
    while n < half {
        let m = run_length(s, len, n);
        let o = places(s, len, n, 1);
        run(a, s, !s.adds, o, 2 * n + s.to, m, 2);
        n += m;
    }
}

// How many stages a filter has.
pub(crate) fn stage_count(index: usize) -> usize
    requires { index ≤ 6 }
    ensures { result ≡ length (filter_of index).stages }
{
    if index < 6 { 2 } else { 4 }
}

// The analysis of a row: every stage undone, the last one first.
pub(crate) fn analyse(row: &mut [i64], index: usize)
    requires { (index ≤ 6) × (length row.old ≤ row_limit) }
    ensures { row.new ≡ analysis_by wrap index row.old }
{
    for k in (0..stage_count(index)).rev() {
        lift(row, stage(2 * index + k));
    }
}
