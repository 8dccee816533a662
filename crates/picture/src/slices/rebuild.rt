// Level-0 values, rebuilt in the rebuilt planes of the work slice.
ghost use Rattle.std.specs.Prelude.{◌≡◌, ◌+◌, ◌*◌, ◌-◌, ◌≤◌, ◌<◌, nat_abs, length, set};
ghost use Rattle.picture.specs.Code.Strip.{reach, value_in, rebuilt_row, rebuilt_strip, Inside, Lies};

use crate::slices::strip::Strip;

// The rebuilt value of a place.
fn value_at(work: &[i64], s: Strip, y: usize, x: usize) -> i64
    requires { Lies work.now s × Inside s y x }
    ensures { (result ≡ value_in work.now s y x) × (nat_abs result ≤ reach) }
{
    let p = crate::slices::strip::prediction(work, s, s.rebuilt, y, x);
    let c = crate::slices::strip::coefficient(work, s, s.coefs, y, x);
    let q = quantiser::forward_by(c - p, s.factor);
    p + quantiser::inverse_by(q, s.factor, s.offset)
}

// Stores a value in the rebuilt plane.
fn store(plane: &mut [i64], i: usize, v: i64)
    requires { i < length plane.old }
    ensures { plane.new ≡ set plane.old i v }
{
    plane[i] = v;
}

// Rebuilds one place of the strip.
fn rebuild_place(work: &mut [i64], s: Strip, y: usize, x: usize)
    requires { Lies work.old s × Inside s y x }
    ensures { work.new ≡ set work.old (s.rebuilt + (y * s.width + x)) (value_in work.old s y x) }
{
    let v = value_at(work, s, y, x);
    let to = s.rebuilt + s.height * s.width;
    store(&mut work[s.rebuilt..to], y * s.width + x, v);
}

// Rebuilds a row of the strip.
fn rebuild_row(work: &mut [i64], s: Strip, y: usize)
    requires { Lies work.old s × ((s.top ≤ y) × (y < s.bottom)) }
    ensures { work.new ≡ rebuilt_row work.old s y s.left (s.right - s.left) }
{
    for x in s.left..s.right {
        rebuild_place(work, s, y, x);
    }
}

// Rebuilds the strip.
pub(crate) fn rebuild_strip(work: &mut [i64], s: Strip)
    requires { Lies work.old s }
    ensures { work.new ≡ rebuilt_strip work.old s }
{
    for y in s.top..s.bottom {
        rebuild_row(work, s, y);
    }
}
