// A low-delay slice's kept numbers, written to the output.
ghost use Rattle.std.specs.Prelude.{◌≡◌, false, [], ◌∷◌, ◌-◌, ◌≤◌, ◌<◌, IsTrue, take};
ghost use Rattle.codewords.specs.CodeWord.{codes};
ghost use Rattle.codewords.specs.Code.Writer.{Wrote};
ghost use Rattle.picture.specs.Code.Strip.{number_in, place_numbers, row_numbers, strip_numbers, Numbered, Inside, Lies};
ghost use Rattle.picture.specs.Code.Put.{RoomFor, Puts};
ghost use Rattle.picture.specs.Code.Layout.{numbers_of, Lying};

use crate::slices::layout::Run;
use crate::slices::strip::Strip;
use codewords::writer::BitWriter;

// The bit writer, and how many numbers are still to be kept.
#[derive(Clone, Copy)]
pub(crate) struct Put {
    pub writer: BitWriter,
    pub left: usize,
}

// Where PLAIN is set, the strip is not predicted.
impl Put {
    // Puts the number of a place, if it is to be kept, by the coefficients that stand from coefs on and the rebuilt
    // plane from base on.
    fn number<const PLAIN: bool>(
        &mut self,
        out: &mut [u8],
        work: &[i64],
        s: Strip,
        coefs: usize,
        base: usize,
        y: usize,
        x: usize,
    )
        requires { RoomFor out.old self.old (number_in work.now s coefs base y x ∷ [])
            × (Numbered work.now s coefs base y x × (IsTrue PLAIN → s.predicted ≡ false)) }
        ensures { Puts out.old self.old (number_in work.now s coefs base y x ∷ []) out.new self.new }
    {
        if self.left == 0 {
            return;
        }
        if PLAIN {
            let c = crate::slices::strip::coefficient(work, s, coefs, y, x);
            self.writer
                .put_signed(out, quantiser::forward_size(c, s.factor), c < 0);
        } else {
            let z = crate::slices::strip::number_at(work, s, coefs, base, y, x);
            self.writer.put_sint(out, z);
        }
        self.left -= 1;
    }

    // Puts the numbers of a place: one, or those of the two colours.
    fn place<const PLAIN: bool>(
        &mut self,
        out: &mut [u8],
        work: &[i64],
        s: Strip,
        y: usize,
        x: usize,
    )
        requires { RoomFor out.old self.old (place_numbers work.now s y x)
            × (Lies work.now s × (Inside s y x × (IsTrue PLAIN → s.predicted ≡ false))) }
        ensures { Puts out.old self.old (place_numbers work.now s y x) out.new self.new }
    {
        self.number::<PLAIN>(out, work, s, s.coefs, s.rebuilt, y, x);
        if let Some(o) = s.second {
            self.number::<PLAIN>(out, work, s, o.coefs, o.rebuilt, y, x);
        }
    }

    // Puts the numbers of a row of the strip, place by place.
    fn places<const PLAIN: bool>(&mut self, out: &mut [u8], work: &[i64], s: Strip, y: usize)
        requires { RoomFor out.old self.old (row_numbers work.now s y s.left (s.right - s.left))
            × (Lies work.now s × (((s.top ≤ y) × (y < s.bottom)) × (IsTrue PLAIN → s.predicted ≡ false))) }
        ensures { Puts out.old self.old (row_numbers work.now s y s.left (s.right - s.left)) out.new self.new }
    {
        for x in s.left..s.right {
            self.place::<PLAIN>(out, work, s, y, x);
        }
    }

    // Puts the numbers of a row of the strip; none is worked out where none is to be kept.
    fn row(&mut self, out: &mut [u8], work: &[i64], s: Strip, y: usize)
        requires { RoomFor out.old self.old (row_numbers work.now s y s.left (s.right - s.left))
            × (Lies work.now s × ((s.top ≤ y) × (y < s.bottom))) }
        ensures { Puts out.old self.old (row_numbers work.now s y s.left (s.right - s.left)) out.new self.new }
    {
        if self.left == 0 {
            return;
        }
        if s.predicted {
            self.places::<false>(out, work, s, y);
        } else {
            self.places::<true>(out, work, s, y);
        }
    }

    // Puts the numbers of the strip, row by row; none is worked out where none is to be kept.
    fn strip(&mut self, out: &mut [u8], work: &[i64], s: Strip)
        requires { RoomFor out.old self.old (strip_numbers work.now s) × Lies work.now s }
        ensures { Puts out.old self.old (strip_numbers work.now s) out.new self.new }
    {
        if self.left == 0 {
            return;
        }
        for y in s.top..s.bottom {
            self.row(out, work, s, y);
        }
    }

    // Puts the numbers of a run that are kept, and gives the writer back. The put is not lent, so that it stays in
    // registers.
    pub(crate) fn run(mut self, out: &mut [u8], work: &[i64], r: &Run) -> BitWriter
        requires { Lying r.now work.now × RoomFor out.old self (numbers_of work.now r.now) }
        ensures { Wrote out.old self.writer (codes (take self.left (numbers_of work.now r.now))) out.new result }
    {
        let mut v = r.first_window();
        let mut start: usize = 0;
        for n in 0..r.layout.band_count() {
            v = r.next_window(n, v);
            let s = r.strip_in(n, start, v);
            self.strip(out, work, s);
            start += s.width * s.height;
        }
        self.writer
    }
}
