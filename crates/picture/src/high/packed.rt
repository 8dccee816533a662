// A slice's run of numbers in short form, in words of the work slice: a number that is not 0 is its own word, 2^52 + n
// stands for n zeros before such a number, and zeros at the run's end have no word. High quality packs a run when its
// slice is planned, and writes from the words.
ghost use Rattle.std.specs.Prelude.{◌≡◌, false, [], ◌∷◌, ◌+◌, ◌*◌, ◌-◌, ◌^◌, ◌≤◌, ◌<◌, length};
ghost use Rattle.laws.specs.Code.Laid.{Lays};
ghost use Rattle.codewords.specs.CodeWord.{codes};
ghost use Rattle.codewords.specs.Code.Writer.{Room, Wrote};
ghost use Rattle.unit.specs.Trim.{is_zero, bits_of};
ghost use Rattle.picture.specs.Code.Strip.{place_numbers, row_numbers, strip_numbers, Inside};
ghost use Rattle.picture.specs.Code.Layout.{numbers_of};
ghost use Rattle.picture.specs.Code.Packed.{zeros_word, word_numbers, unpacked, words_at, Packable, PackIn, PackRunIn, Packs};

use crate::slices::layout::Run;
use crate::slices::strip::Strip;
use codewords::writer::BitWriter;

// The word of n zeros is n more than this.
const MARK: i64 = 0x10_0000_0000_0000;

// Where the next word goes, the zeros that have none yet, and the bits of the words so far.
#[derive(Clone, Copy)]
pub(crate) struct Packing {
    pub at: usize,
    pub zeros: usize,
    pub bits: u64,
}

// A packed run: how many words, and their bits.
#[derive(Clone, Copy)]
pub(crate) struct Packed {
    pub words: usize,
    pub bits: u64,
}

// Packs n zeros into one word at place at, if there are any, and gives the place after it.
fn pack_zeros(work: &mut [i64], at: usize, n: usize) -> usize
    requires { (at + length (zeros_word n) ≤ length work.old) × (n ≤ 2 ^ 30) }
    ensures { Lays work.old at (zeros_word n) work.new result }
{
    if n == 0 {
        return at;
    }
    work[at] = MARK + n as i64;
    at + 1
}

impl Packing {
    // Packs a number that is not 0.
    fn pack_number(&mut self, work: &mut [i64], z: i64)
        requires { (is_zero z ≡ false) × Packable (length work.old) self.old 1 }
        ensures { Packs work.old self.old (z ∷ []) work.new self.new }
    {
        let at = pack_zeros(work, self.at, self.zeros);
        work[at] = z;
        self.bits += self.zeros as u64 + codewords::sint_code_len(z) as u64;
        self.zeros = 0;
        self.at = at + 1;
    }

    // Packs the number of a place.
    fn pack_place(&mut self, work: &mut [i64], s: Strip, y: usize, x: usize)
        requires { PackIn work.old s self.old 1 × Inside s y x }
        ensures { Packs work.old self.old (place_numbers work.old s y x) work.new self.new }
    {
        let c = crate::slices::strip::coefficient(work, s, s.coefs, y, x);
        let z = quantiser::forward_small(c, s.factor);
        if z == 0 {
            self.zeros += 1;
        } else {
            self.pack_number(work, z);
        }
    }

    // Packs the numbers of a row of the strip.
    fn pack_row(&mut self, work: &mut [i64], s: Strip, y: usize)
        requires { PackIn work.old s self.old (s.right - s.left) × ((s.top ≤ y) × (y < s.bottom)) }
        ensures { Packs work.old self.old (row_numbers work.old s y s.left (s.right - s.left)) work.new self.new }
    {
        for x in s.left..s.right {
            self.pack_place(work, s, y, x);
        }
    }

    // Packs the numbers of the strip.
    fn pack_strip(&mut self, work: &mut [i64], s: Strip)
        requires { PackIn work.old s self.old ((s.bottom - s.top) * (s.right - s.left)) }
        ensures { Packs work.old self.old (strip_numbers work.old s) work.new self.new }
    {
        for y in s.top..s.bottom {
            self.pack_row(work, s, y);
        }
    }
}

// Packs the run of one component, from place at on.
pub(crate) fn pack_run(work: &mut [i64], at: usize, r: &Run) -> Packing
    requires { PackRunIn r.now at work.old }
    ensures { Packs work.old (record { at = at; zeros = 0; bits = 0 }) (numbers_of work.old r.now) work.new result }
{
    let mut v = r.first_window();
    let mut t = Packing {
        at,
        zeros: 0,
        bits: 0,
    };
    let mut start = 0;
    for n in 0..r.layout.band_count() {
        v = r.next_window(n, v);
        let s = r.strip_in(n, start, v);
        t.pack_strip(work, s);
        start += s.width * s.height;
    }
    t
}

// Puts the numbers of a word.
fn put_word(out: &mut [u8], w: &mut BitWriter, z: i64)
    requires { Room out.old w.old (bits_of (word_numbers z)) }
    ensures { Wrote out.old w.old (codes (word_numbers z)) out.new w.new }
{
    if z >= MARK {
        w.put_ones(out, (z - MARK) as u64);
    } else {
        w.put_sint(out, z);
    }
}

// Puts the numbers of n words from place at on. The loop has its own writer, which can stay in registers.
pub(crate) fn put_words(out: &mut [u8], w: &mut BitWriter, work: &[i64], at: usize, n: usize)
    requires { (at + n ≤ length work.now) × Room out.old w.old (bits_of (unpacked (words_at work.now at n))) }
    ensures { Wrote out.old w.old (codes (unpacked (words_at work.now at n))) out.new w.new }
{
    let mut v = *w;
    for z in &work[at..at + n] {
        put_word(out, &mut v, *z);
    }
    *w = v;
}
