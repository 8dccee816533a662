// The slice coder: the state that goes from slice to slice.
ghost use Rattle.std.specs.Prelude.{◌≡◌, ◌+◌, ◌*◌, ◌^◌, ◌≤◌, ◌<◌, length};
ghost use Rattle.laws.specs.Code.Laid.{laid, Lays};
ghost use Rattle.codewords.specs.Bytes.{to_bytes};
ghost use Rattle.picture.specs.Code.Strip.{Small};
ghost use Rattle.picture.specs.Code.Picture.{slices_in};
ghost use Rattle.picture.specs.Code.Choice.{plan_in, choice_in, words_in, words_to, slice_number_count, FewBits};
ghost use Rattle.picture.specs.Code.Notes.{note_in, Notes};
ghost use Rattle.picture.specs.Code.Passes.{planned_by, PlansOn};
ghost use Rattle.picture.specs.Code.Low.{low_bits_in, low_cut_in, low_work_in, LowIn};

use crate::high::choice::Choice;
use crate::high::plan::Plan;
use crate::low::trial::Slice;
use crate::slices::layout::Picture;

// Where the next slice goes in the output, how many low-delay slices are cut, the largest need of a component, the
// index of the slice before, from which the search in high quality and the bracket in low delay begin, and where the
// words of the next slice stand in the work slice.
#[derive(Clone, Copy)]
pub(crate) struct SliceCoder {
    pub at: usize,
    pub cut_slices: u32,
    pub largest: u64,
    pub index: u32,
    pub words: usize,
}

impl SliceCoder {
    // The state before the first slice, which goes to place at.
    pub(crate) fn new(at: usize) -> SliceCoder
        ensures { (result.at ≡ at) × ((result.cut_slices ≡ 0) × ((result.largest ≡ 0) × ((result.words ≡ 0) × (result.index ≡ 0)))) }
    {
        SliceCoder {
            at,
            cut_slices: 0,
            largest: 0,
            index: 0,
            words: 0,
        }
    }

    // Plans a high-quality slice of choice c.
    fn plan_choice(self, d: Plan, c: Choice) -> SliceCoder
        requires { FewBits c × ((self.at < 2 ^ 60) × (self.words < 2 ^ 60)) }
        ensures { (result ≡ planned_by d.terms c self) × (result.at ≤ self.at + 2 ^ 34) }
    {
        let n = crate::high::size::needs_of(c.y.bits, c.c1.bits, c.c2.bits);
        SliceCoder {
            at: self.at + crate::high::size::slice_size(n, d) as usize,
            largest: crate::high::size::largest(n, self.largest),
            index: c.index,
            words: self.words + crate::high::choice::words_of(c),
            ..self
        }
    }

    // Plans high-quality slice k, packs its words and notes its choice.
    pub(crate) fn plan_hq_slice(self, work: &mut [i64], d: Plan, k: u32) -> SliceCoder
        requires { Small d.picture.front d.picture.end work.old × ((k < slices_in d.picture)
            × ((self.at < 2 ^ 60) × (self.words + slice_number_count d.picture k ≤ d.picture.front))) }
        ensures { PlansOn (plan_in work.old d.picture d.terms k) self result
            × ((work.new ≡ note_in (laid work.old self.words (words_in work.old d.picture d.terms k)) (d.picture.end + 7 * k) (choice_in work.old d.picture d.terms k))
            × Small d.picture.front d.picture.end work.new) }
    {
        let c = crate::high::choice::choice_of(work, d, k, self.index, self.words);
        crate::high::notes::note_choice(work, d.picture.end + 7 * k as usize, c);
        self.plan_choice(d, c)
    }

    // Plans high-quality slice k by the choice noted.
    pub(crate) fn plan_noted_slice(self, work: &mut [i64], d: Plan, k: u32) -> SliceCoder
        requires { Small d.picture.front d.picture.end work.old × ((k < slices_in d.picture) × (Notes work.old d.picture d.terms (slices_in d.picture) work.old
            × ((self.at < 2 ^ 60) × (self.words ≡ length (words_to work.old d.picture d.terms k))))) }
        ensures { PlansOn (plan_in work.old d.picture d.terms k) self result × (work.new ≡ work.old) }
    {
        let c = crate::high::notes::noted_choice(work, d, k, self.words);
        self.plan_choice(d, c)
    }

    // Writes high-quality slice k.
    pub(crate) fn code_hq_slice(
        self,
        out: &mut [u8],
        work: &mut [i64],
        d: Plan,
        k: u32,
    ) -> SliceCoder
        requires { Small d.picture.front d.picture.end work.old × ((k < slices_in d.picture)
            × (Notes work.old d.picture d.terms (slices_in d.picture) work.old × ((self.words ≡ length (words_to work.old d.picture d.terms k))
            × (self.at + length (to_bytes (plan_in work.old d.picture d.terms k).bits) ≤ length out.old)))) }
        ensures { Lays out.old self.at (to_bytes (plan_in work.old d.picture d.terms k).bits) out.new result.at
            × ((result.cut_slices ≡ self.cut_slices) × ((result.largest ≡ self.largest)
            × ((result.words ≡ self.words + length (words_in work.old d.picture d.terms k)) × (work.new ≡ work.old)))) }
    {
        let c = crate::high::notes::noted_choice(work, d, k, self.words);
        SliceCoder {
            at: crate::high::slice::put_hq_slice(out, self.at, work, self.words, c, d),
            words: self.words + crate::high::choice::words_of(c),
            ..self
        }
    }

    // Writes low-delay slice k; n is the numerator.
    pub(crate) fn code_ld_slice(
        self,
        out: &mut [u8],
        work: &mut [i64],
        p: Picture,
        n: u32,
        k: u32,
    ) -> SliceCoder
        requires { LowIn p n work.old × ((k < slices_in p) × ((self.cut_slices ≤ k)
            × (self.at + length (to_bytes (low_bits_in p n work.old k)) ≤ length out.old))) }
        ensures { Lays out.old self.at (to_bytes (low_bits_in p n work.old k)) out.new result.at
            × ((work.new ≡ low_work_in p n work.old k) × (Small p.front p.end work.new
            × ((result.cut_slices ≡ self.cut_slices + low_cut_in p n work.old k) × (result.largest ≡ self.largest)))) }
    {
        let bytes = crate::low::size::slice_bytes(n, crate::slices::layout::slice_count(p), k);
        let room = crate::low::size::room_of(bytes);
        let g = self.index.min(127);
        let s = Slice::new(p, k);
        let e = crate::low::election::elect_qindex(work, s, room, 0, g);
        let q = e.index;
        s.rebuild_planes(work, q);
        let z = crate::low::slice::put_ld_slice(out, self.at, work, s, bytes, q, e.rest);
        SliceCoder {
            at: z.at,
            cut_slices: self.cut_slices + z.cut as u32,
            index: q,
            ..self
        }
    }
}
