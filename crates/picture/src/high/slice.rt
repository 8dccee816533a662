// High-quality slices, written to the output.
ghost use Rattle.std.specs.Prelude.{◌+◌, ◌*◌, ◌^◌, ◌≤◌, length};
ghost use Rattle.laws.specs.Code.Laid.{Lays};
ghost use Rattle.codewords.specs.Bit.{zero_bits};
ghost use Rattle.codewords.specs.Bytes.{to_bytes};
ghost use Rattle.codewords.specs.Code.Writer.{Room, Wrote};
ghost use Rattle.unit.specs.HighQuality.{component_bits, high_bits};
ghost use Rattle.picture.specs.Code.Choice.{three_bits};
ghost use Rattle.picture.specs.Code.Notes.{run_at, numbers_at, Held, HeldSlice};

use crate::high::choice::Choice;
use crate::high::packed::Packed;
use crate::high::plan::Plan;
use codewords::writer::BitWriter;

// Puts a component whose run is t, with its words from place from on: a byte that counts scalers, its numbers, and
// ones.
fn put_component(
    out: &mut [u8],
    w: &mut BitWriter,
    work: &[i64],
    from: usize,
    t: Packed,
    scaler: u32,
)
    requires { Held work.now from t × (((1 ≤ scaler) × (scaler ≤ 2 ^ 24)) × Room out.old w.old (length (component_bits scaler (run_at work.now from t)))) }
    ensures { Wrote out.old w.old (component_bits scaler (run_at work.now from t)) out.new w.new }
{
    let n = crate::high::size::scalers(crate::high::size::need(t.bits), scaler);
    w.put_nbits(out, n, 8);
    crate::high::packed::put_words(out, w, work, from, t.words);
    w.put_ones(out, 8 * (n * scaler as u64) - t.bits);
}

// Puts n prefix bytes, which are zeros.
fn put_prefix(out: &mut [u8], w: &mut BitWriter, n: u32)
    requires { Room out.old w.old (8 * n) × (n ≤ 255) }
    ensures { Wrote out.old w.old (zero_bits (8 * n)) out.new w.new }
{
    for _ in 0..n {
        w.put_nbits(out, 0, 8);
    }
}

// Puts the three components of choice c.
fn put_components(
    out: &mut [u8],
    w: &mut BitWriter,
    work: &[i64],
    from: usize,
    c: Choice,
    scaler: u32,
)
    requires { HeldSlice work.now from c × (((1 ≤ scaler) × (scaler ≤ 2 ^ 24)) × Room out.old w.old (length (three_bits scaler (numbers_at work.now from c)))) }
    ensures { Wrote out.old w.old (three_bits scaler (numbers_at work.now from c)) out.new w.new }
{
    let behind = from + c.y.words;
    put_component(out, w, work, from, c.y, scaler);
    put_component(out, w, work, behind, c.c1, scaler);
    put_component(out, w, work, behind + c.c1.words, c.c2, scaler);
}

// Writes the slice of choice c from place at on, and gives the place after it.
pub(crate) fn put_hq_slice(
    out: &mut [u8],
    at: usize,
    work: &[i64],
    from: usize,
    c: Choice,
    d: Plan,
) -> usize
    requires { HeldSlice work.now from c
        × (at + length (to_bytes (high_bits d.terms.prefix d.terms.scaler c.index (numbers_at work.now from c))) ≤ length out.old) }
    ensures { Lays out.old at (to_bytes (high_bits d.terms.prefix d.terms.scaler c.index (numbers_at work.now from c))) out.new result }
{
    let mut w = BitWriter::new(at);
    put_prefix(out, &mut w, d.terms.prefix);
    w.put_nbits(out, c.index as u64, 8);
    put_components(out, &mut w, work, from, c, d.terms.scaler);
    w.flush(out);
    w.at
}
