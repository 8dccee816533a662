// Cases of code words.
ghost use Rattle.std.specs.Prelude.{◌+◌, ◌*◌, ◌≤◌, ◌≡◌, length};
ghost use Rattle.codewords.specs.Code.Writer.{Room, Wrote};
ghost use Rattle.replay.specs.Code.Put.{bits_of, Legal};

use crate::case::{self, Judged, Malformed};
use codewords::writer::BitWriter;

pub(crate) fn uint_len(w: &[u64]) -> Judged {
    let [v, len] = w else {
        return Err(Malformed);
    };
    Ok(u64::from(codewords::uint_code_len(u32::try_from(*v)?)) == *len)
}

pub(crate) fn sint_len(w: &[u64]) -> Judged {
    let [v, len] = w else {
        return Err(Malformed);
    };
    Ok(u64::from(codewords::sint_code_len(v.cast_signed())) == *len)
}

// What a case puts behind the ones.
#[derive(Clone, Copy)]
enum Put {
    Uint(u32),
    Sint(i64),
    Nbits(u32, u64),
}

fn put_one(out: &mut [u8], w: &mut BitWriter, p: Put)
    requires { Room out.old w.old (length (bits_of p)) × Legal p }
    ensures { Wrote out.old w.old (bits_of p) out.new w.new }
{
    match p {
        Put::Uint(v) => w.put_uint(out, v),
        Put::Sint(v) => w.put_sint(out, v),
        Put::Nbits(n, v) => w.put_nbits(out, v, n),
    }
}

// s ones and then p, with zeros to the byte's end: how many bits were put before those.
fn put_all(out: &mut [u8], s: u64, p: Put) -> u64
    requires { (length out.old ≡ 24) × ((s ≤ 7) × Legal p) }
{
    let mut w = BitWriter::new(0);
    w.put_ones(out, s);
    put_one(out, &mut w, p);
    let bits = w.at as u64 * 8 + u64::from(w.pending_bits);
    w.byte_align(out);
    bits
}

// The recorded bits, how many and packed, are those of s ones and p.
fn agrees(s: u64, p: Put, bits: u64, packed: &[u64]) -> Judged
    requires { Legal p }
{
    if bits > 192 || s > 7 || packed.len() != bits.div_ceil(64) as usize {
        return Err(Malformed);
    }
    let mut out = [0u8; 24];
    let mut words = [0u64; 3];
    let put = put_all(&mut out, s, p);
    case::unpack(&out, &mut words);
    Ok(put == bits && packed == &words[..packed.len()])
}

pub(crate) fn uint_bits(w: &[u64]) -> Judged {
    let [s, v, bits, packed @ ..] = w else {
        return Err(Malformed);
    };
    agrees(*s, Put::Uint(u32::try_from(*v)?), *bits, packed)
}

pub(crate) fn sint_bits(w: &[u64]) -> Judged {
    let [s, v, bits, packed @ ..] = w else {
        return Err(Malformed);
    };
    agrees(*s, Put::Sint(v.cast_signed()), *bits, packed)
}

pub(crate) fn nbits_bits(w: &[u64]) -> Judged {
    let [s, n, v, bits, packed @ ..] = w else {
        return Err(Malformed);
    };
    agrees(*s, Put::Nbits(case::within(*n, 0, 64)?, *v), *bits, packed)
}
