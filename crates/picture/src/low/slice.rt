// A low-delay slice, written.
ghost use Rattle.std.specs.Prelude.{◌≡◌, ◌+◌, ◌^◌, ◌≤◌, length};
ghost use Rattle.laws.specs.Code.Laid.{Lays};
ghost use Rattle.codewords.specs.Bit.{val};
ghost use Rattle.codewords.specs.Bytes.{to_bytes};
ghost use Rattle.codewords.specs.Code.Writer.{Room, Wrote};
ghost use Rattle.picture.specs.Code.Picture.{SliceIn};
ghost use Rattle.picture.specs.Code.LowRest.{Known};
ghost use Rattle.picture.specs.Code.Low.{run_bits, low_bits_by, low_cut_by};

use crate::low::cut::Kept;
use crate::low::put::Put;
use crate::low::trial::{Rest, Slice};
use codewords::writer::BitWriter;

// A slice that is written: the place where it ends, and whether it is cut.
#[derive(Clone, Copy)]
pub(crate) struct CodedSlice {
    pub at: usize,
    pub cut: bool,
}

// Puts the numbers of the two runs.
fn put_runs(out: &mut [u8], w: &mut BitWriter, work: &[i64], s: Slice, q: u32, r: Kept)
    requires { SliceIn s.picture work.now s.k q × Room out.old w.old (length (run_bits work.now s.picture s.k q r)) }
    ensures { Wrote out.old w.old (run_bits work.now s.picture s.k q r) out.new w.new }
{
    let p = s.picture;
    let luma = Put {
        writer: *w,
        left: r.luma.count,
    };
    *w = luma.run(out, work, &p.run(p.y, s.k, q));
    let colour = Put {
        writer: *w,
        left: r.colour.count,
    };
    *w = colour.run(out, work, &p.colours(s.k, q));
}

// Writes slice s of n bytes at index q from place at on. rest has its runs behind level 0 at q or at another index.
pub(crate) fn put_ld_slice(
    out: &mut [u8],
    at: usize,
    work: &[i64],
    s: Slice,
    n: u64,
    q: u32,
    rest: Rest,
) -> CodedSlice
    requires { SliceIn s.picture work.now s.k q × (((1 ≤ n) × (n ≤ 2 ^ 30)) × ((at + n ≤ length out.old) × Known work.now s.picture s.k rest)) }
    ensures { Lays out.old at (to_bytes (low_bits_by work.now s.picture n s.k q)) out.new result.at
        × (val result.cut ≡ low_cut_by work.now s.picture n s.k q) }
{
    let room = crate::low::size::room_of(n);
    let r = crate::low::cut::kept_runs(work, s, room, q, s.rest_at(work, q, rest));
    let mut w = BitWriter::new(at);
    w.put_nbits(out, q as u64, 7);
    w.put_nbits(out, r.luma.bits, crate::low::size::length_bits(n));
    put_runs(out, &mut w, work, s, q, r);
    w.put_ones(out, room - r.luma.bits - r.colour.bits);
    w.flush(out);
    CodedSlice {
        at: w.at,
        cut: r.cut,
    }
}
