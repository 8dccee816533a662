// Code words: their lengths, and the writer of bits. The port of bitio.rs.
#![tactic(auto)]

pub mod writer;

ghost use Rattle.std.specs.Prelude.{◌≡◌, ◌≤◌, ◌^◌, length, nat_abs};
ghost use Rattle.codewords.specs.CodeWord.{code_u, code_s};

// How far v is from 0: 2^63 for the least i64.
pub fn unsigned_abs(v: i64) -> u64
    ensures { (result ≡ nat_abs v) × (result ≤ 2 ^ 63) }
{
    v.unsigned_abs()
}

// How many bits the unsigned code word of v has.
pub fn uint_code_len(v: u32) -> u32
    ensures { result ≡ length (code_u v) }
{
    2 * (63 - (v as u64 + 1).leading_zeros()) + 1
}

// How many bits the signed code word of v has.
pub fn sint_code_len(v: i64) -> u32
    ensures { result ≡ length (code_s v) }
{
    let m = unsigned_abs(v);
    if m == 0 {
        1
    } else {
        2 * (63 - (m + 1).leading_zeros()) + 2
    }
}
