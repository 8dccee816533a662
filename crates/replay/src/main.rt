// Replays recorded answers of the Rust: each case on standard input is run here, and what comes out is compared with
// what was recorded.
//
// The input is 64-bit words, high byte first. A case is a word K * 2^32 + N, its kind and the number of words that
// follow, and then these words. Signed numbers are in two's complement. Packed bytes stand eight to a word, high byte
// first, zeros behind the last.
//   1  uint_code_len: v, length
//   2  sint_code_len: v, length
//   3  put_uint: s, v, bits, packed bytes. s ones (0 to 7) are put first; bits counts all, and zeros fill the last byte
//   4  put_sint: s, v, bits, packed bytes
//   5  put_nbits: s, n, v, bits, packed bytes
//   16  quant_factor: index, answer (0, or 6), value (0 if refused)
//   17  quant_offset: index, answer, value
//   18  forward_quant: coefficient, index, answer, value
//   19  inverse_quant: number, index, answer, value
//   20  default_quant_matrix: wavelet, horizontal-only wavelet, depth, horizontal-only depth, count (0 if there is
//       none), values
//   32  oned_analysis: wavelet, answer (0, 1), n, row (n words), row after the call (n words)
//   33  dwt: wavelet, horizontal-only wavelet, depth, horizontal-only depth, width, height, d (the offset is
//       2^(d-1)), samples, all coefficients of the padded component in subband order, each band row by row
//   34  long row: wavelet, n, answer (0, 1 or 15) for a row of n zeros
//   48  job: bytes of the job, the job packed, bytes of the printed text, the text packed
// What is printed: a line for each case that differs or is malformed, with its number from 1 on and its kind; then for
// each kind how many were run and how many differ, and how many cases were malformed. A case of another kind or form is
// malformed; one that is cut off, or longer than 8,192 words, is malformed and ends the run.
#![tactic(auto)]

mod case;
mod codes;
mod job;
mod quant;
mod tally;
mod transform;

ghost use Rattle.std.specs.Prelude.{◌≡◌, IfOk, length};
ghost use Rattle.replay.specs.Code.Case.{Held};

use case::{Judged, Malformed};
use jobs::input::read_full;
use std::io::{self, Read};
use tally::Tally;

// Runs a case, by its kind.
fn run_case(kind: u64, w: &[u64]) -> Judged {
    match kind {
        1 => codes::uint_len(w),
        2 => codes::sint_len(w),
        3 => codes::uint_bits(w),
        4 => codes::sint_bits(w),
        5 => codes::nbits_bits(w),
        16 => quant::index_case(w, quantiser::quant_factor),
        17 => quant::index_case(w, quantiser::quant_offset),
        18 => quant::number_case(w, quantiser::forward_quant),
        19 => quant::number_case(w, quantiser::inverse_quant),
        20 => quant::matrix(w),
        32 => transform::row(w),
        33 => transform::dwt(w),
        34 => transform::long_row(w),
        48 => job::job(w),
        _ => Err(Malformed),
    }
}

// What comes next on the input: nothing, a case of some kind that is cut off or too long, or n words of one.
enum Next {
    End,
    Cut(u64),
    Case(u64, usize),
}

// Reads the next case's words.
fn read_case<R: Read>(input: &mut R, bytes: &mut [u8], words: &mut [u64]) -> io::Result<Next>
    requires { (65536 ≡ length bytes.old) × (8192 ≡ length words.old) }
    ensures { IfOk result (Held 8192) }
{
    let head = read_full(input, &mut bytes[..8])?;
    if head == 0 {
        return Ok(Next::End);
    }
    if head < 8 {
        return Ok(Next::Cut(0));
    }
    let first = case::word(&bytes[..8]);
    let kind = first >> 32;
    let n = (first % 0x1_0000_0000) as usize;
    if n > 8192 || read_full(input, &mut bytes[..8 * n])? < 8 * n {
        return Ok(Next::Cut(kind));
    }
    case::unpack(bytes, &mut words[..n]);
    Ok(Next::Case(kind, n))
}

// All cases, at most a million.
fn replay<R: Read>(rt: &impl Print, input: &mut R) -> io::Result<Tally> {
    let mut bytes = [0u8; 65536];
    let mut words = [0u64; 8192];
    let mut t = Tally::new();
    for _ in 0..1_000_000 {
        match read_case(input, &mut bytes, &mut words)? {
            Next::End => break,
            Next::Cut(kind) => {
                t.broken(rt, kind)?;
                break;
            }
            Next::Case(kind, n) => t.count(rt, kind, run_case(kind, &words[..n]))?,
        }
    }
    Ok(t)
}

fn main(rt: HostRuntime) -> io::Result<()> {
    let mut input = rt.reader();
    replay(&rt, &mut input)?.print(&rt)
}
