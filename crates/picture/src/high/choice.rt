// The choice of a high-quality slice: its index, and the runs of its components there, packed.
ghost use Rattle.std.specs.Prelude.{◌≡◌, ◌+◌, ◌^◌, ◌≤◌, ◌<◌};
ghost use Rattle.laws.specs.Code.Laid.{laid};
ghost use Rattle.picture.specs.Code.Strip.{Small};
ghost use Rattle.picture.specs.Code.Picture.{slices_in, numbers_in, SliceIn};
ghost use Rattle.picture.specs.Code.Choice.{choice_by, choice_in, slice_words, words_in, slice_number_count, words_of, FewBits};

use crate::high::packed::Packed;
use crate::high::plan::Plan;

// A slice's index, and the runs of its components there, whose words stand one after the other.
#[derive(Clone, Copy)]
pub(crate) struct Choice {
    pub index: u32,
    pub y: Packed,
    pub c1: Packed,
    pub c2: Packed,
}

// How many words a choice has.
pub(crate) fn words_of(c: Choice) -> usize
    requires { FewBits c }
    ensures { (result ≡ words_of c) × (result ≤ 2 ^ 35) }
{
    c.y.words + (c.c1.words + c.c2.words)
}

// Slice k's choice of index q, its runs packed from place from on.
fn pack_slice(work: &mut [i64], d: Plan, k: u32, q: u32, from: usize) -> Choice
    requires { SliceIn d.picture work.old k q × (from + slice_number_count d.picture k ≤ d.picture.front) }
    ensures { (result ≡ choice_by (numbers_in work.old d.picture k) q)
        × ((work.new ≡ laid work.old from (slice_words (numbers_in work.old d.picture k q))) × Small d.picture.front d.picture.end work.new) }
{
    let p = &d.picture;
    let y = crate::high::packed::pack_run(work, from, &p.run(p.y, k, q));
    let c1 = crate::high::packed::pack_run(work, y.at, &p.run(p.c1, k, q));
    let c2 = crate::high::packed::pack_run(work, c1.at, &p.run(p.c2, k, q));
    Choice {
        index: q,
        y: Packed {
            words: y.at - from,
            bits: y.bits,
        },
        c1: Packed {
            words: c1.at - y.at,
            bits: c1.bits,
        },
        c2: Packed {
            words: c2.at - c1.at,
            bits: c2.bits,
        },
    }
}

// The choice of slice k, its runs packed from place from on.
pub(crate) fn choice_of(work: &mut [i64], d: Plan, k: u32, g: u32, from: usize) -> Choice
    requires { Small d.picture.front d.picture.end work.old × ((k < slices_in d.picture) × (from + slice_number_count d.picture k ≤ d.picture.front)) }
    ensures { (result ≡ choice_in work.old d.picture d.terms k)
        × ((work.new ≡ laid work.old from (words_in work.old d.picture d.terms k)) × Small d.picture.front d.picture.end work.new) }
{
    let q = crate::high::election::index_of(work, d, k, g);
    pack_slice(work, d, k, q, from)
}
