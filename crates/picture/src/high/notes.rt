// The choices of high-quality slices, noted in the work slice.
ghost use Rattle.std.specs.Prelude.{◌≡◌, ◌+◌, ◌^◌, ◌<◌, pos, length, set};
ghost use Rattle.laws.specs.Rows.{at};
ghost use Rattle.picture.specs.Code.Strip.{Small};
ghost use Rattle.picture.specs.Code.Picture.{slices_in};
ghost use Rattle.picture.specs.Code.Choice.{choice_in, words_to, FewBits};
ghost use Rattle.picture.specs.Code.Notes.{note_run, note_in, RunAt, Notes};

use crate::high::choice::Choice;
use crate::high::packed::Packed;
use crate::high::plan::Plan;

// Notes a number at place i, where the work slice reaches so far.
fn note(work: &mut [i64], i: usize, v: u64)
    requires { v < 2 ^ 63 }
    ensures { work.new ≡ set work.old i (pos v) }
{
    if i < work.len() {
        work[i] = v as i64;
    }
}

// Notes a run from place i on.
fn note_run(work: &mut [i64], i: usize, r: Packed)
    requires { (i < 2 ^ 40) × ((r.words < 2 ^ 63) × (r.bits < 2 ^ 63)) }
    ensures { work.new ≡ note_run work.old i r }
{
    note(work, i, r.words as u64);
    note(work, i + 1, r.bits);
}

// Notes a choice in seven places from i on.
pub(crate) fn note_choice(work: &mut [i64], i: usize, c: Choice)
    requires { (i < 2 ^ 39) × FewBits c }
    ensures { work.new ≡ note_in work.old i c }
{
    note(work, i, c.index as u64);
    note_run(work, i + 1, c.y);
    note_run(work, i + 3, c.c1);
    note_run(work, i + 5, c.c2);
}

// The run that is noted from place i on.
fn noted_run(work: &[i64], i: usize) -> Packed
    requires { RunAt work.now i }
    ensures { (at work.now i ≡ pos result.words) × (at work.now (i + 1) ≡ pos result.bits) }
{
    Packed {
        words: work[i] as usize,
        bits: work[i + 1] as u64,
    }
}

// The choice of slice k as it was noted, or where the work slice does not reach so far chosen anew; its words stand
// from place from on.
pub(crate) fn noted_choice(work: &mut [i64], d: Plan, k: u32, from: usize) -> Choice
    requires { Small d.picture.front d.picture.end work.old × ((k < slices_in d.picture)
        × (Notes work.old d.picture d.terms (slices_in d.picture) work.old × (from ≡ length (words_to work.old d.picture d.terms k)))) }
    ensures { (result ≡ choice_in work.old d.picture d.terms k) × (work.new ≡ work.old) }
{
    let i = d.picture.end + 7 * k as usize;
    if i + 6 < work.len() {
        return Choice {
            index: work[i] as u32,
            y: noted_run(work, i + 1),
            c1: noted_run(work, i + 3),
            c2: noted_run(work, i + 5),
        };
    }
    crate::high::choice::choice_of(work, d, k, 0, from)
}
