// The numbers of a strip, added up one by one: to what they cost (slices::cost) or to what they tally (slices::tally).
ghost use Rattle.std.specs.Prelude.{◌≡◌, Bool, false, ℕ, ◌*◌, ◌-◌, ◌≤◌, ◌<◌, ℤ};
ghost use Rattle.picture.specs.Code.Strip.{number_in, second_number, place_numbers, row_numbers, strip_numbers, Numbered, Inside, Lies};
ghost use Rattle.picture.specs.Code.Cost.{added, Counted};
ghost use Rattle.picture.specs.Code.Counter.{Counts};

use crate::slices::strip::Strip;

// What adds up numbers.
pub(crate) trait Counter: Copy {
    // With one number more.
    ghost step: { Self → ℤ → Self };

    // The bits and the count of the numbers so far.
    ghost bits: { Self → ℕ };

    ghost count: { Self → ℕ };

    // Whether it adds the numbers of a strip, by whether the strip is predicted.
    ghost takes: { Bool → Type 0 };

    ghost plain: { takes false };

    ghost laws: { Counts step bits count };

    // With the number of a place, by the coefficients that stand from coefs on and the rebuilt plane from base on.
    fn add_number(
        self,
        work: &[i64],
        s: Strip,
        coefs: usize,
        base: usize,
        y: usize,
        x: usize,
    ) -> Self
        requires { Numbered work.now s coefs base y x × (takes s.predicted × Counted (bits self) (count self) 1) }
        ensures { result ≡ step self (number_in work.now s coefs base y x) };
}

// With the second colour's number of a place, where there is one.
fn add_second<C: Counter>(work: &[i64], s: Strip, y: usize, x: usize, c: C) -> C
    requires { Lies work.now s × (C.takes s.predicted × (Inside s y x × Counted (C.bits c) (C.count c) 1)) }
    ensures { result ≡ added C.step c (second_number work.now s y x) }
{
    match s.second {
        Some(o) => c.add_number(work, s, o.coefs, o.rebuilt, y, x),
        None => c,
    }
}

// With the numbers of a place.
fn add_place<C: Counter>(work: &[i64], s: Strip, y: usize, x: usize, c: C) -> C
    requires { Lies work.now s × (C.takes s.predicted × (Inside s y x × Counted (C.bits c) (C.count c) 2)) }
    ensures { result ≡ added C.step c (place_numbers work.now s y x) }
{
    let d = c.add_number(work, s, s.coefs, s.rebuilt, y, x);
    add_second(work, s, y, x, d)
}

// With the numbers of a row of the strip.
fn add_row<C: Counter>(work: &[i64], s: Strip, y: usize, c: C) -> C
    requires { Lies work.now s × (C.takes s.predicted × ((s.top ≤ y) × ((y < s.bottom) × Counted (C.bits c) (C.count c) (2 * (s.right - s.left))))) }
    ensures { result ≡ added C.step c (row_numbers work.now s y s.left (s.right - s.left)) }
{
    let mut t = c;
    for x in s.left..s.right {
        t = add_place(work, s, y, x, t);
    }
    t
}

// With the numbers of the strip.
pub(crate) fn add_strip<C: Counter>(work: &[i64], s: Strip, c: C) -> C
    requires { Lies work.now s × (C.takes s.predicted × Counted (C.bits c) (C.count c) (2 * ((s.bottom - s.top) * (s.right - s.left)))) }
    ensures { result ≡ added C.step c (strip_numbers work.now s) }
{
    let mut t = c;
    for y in s.top..s.bottom {
        t = add_row(work, s, y, t);
    }
    t
}
