// Factors, offsets and the quantiser, and the default matrices. The port of quant.rs.
#![tactic(auto)]

pub mod annex_d;
pub mod factors;

ghost use Rattle.std.specs.Prelude.{◌≡◌, ◌*◌, ◌/◌, ◌≤◌, ◌<◌, ◌^◌, length, pos, nat_abs, IfOk, IfErr};
ghost use Rattle.codewords.specs.CodeWord.{log2, code_s};
ghost use Rattle.refusals.specs.declared.Refusal.TheVariants.{Index};
ghost use Rattle.quantiser.specs.Answer.{Answered};
ghost use Rattle.quantiser.specs.Standard.{signed};
ghost use Rattle.quantiser.specs.Quant.{cap, quant_factor, quant_offset, forward_by, forward_quant, inverse_by, inverse_quant};
ghost use Rattle.quantiser.specs.Code.Step.{Doubles};

use refusals::Refusal;

// An index above 255 is refused.
fn in_table(index: u32) -> Result<(), Refusal>
    ensures ok { IfOk result (λ u. index ≤ 255) }
    ensures err { IfErr result (λ r. (r ≡ Index) × (255 < index)) }
{
    if index > 255 {
        return Err(Refusal::Index);
    }
    Ok(())
}

pub fn quant_factor(index: u32) -> Result<i64, Refusal>
    ensures { Answered index (pos (quant_factor index)) result }
{
    in_table(index)?;
    Ok(factors::table_at(index) as i64)
}

pub fn quant_offset(index: u32) -> Result<i64, Refusal>
    ensures { Answered index (pos (quant_offset index)) result }
{
    in_table(index)?;
    Ok(factors::offset_at(index) as i64)
}

pub fn forward_quant(coeff: i64, index: u32) -> Result<i64, Refusal>
    ensures { Answered index (forward_quant coeff index) result }
{
    in_table(index)?;
    Ok(forward_by(coeff, factors::table_at(index)))
}

pub fn inverse_quant(number: i64, index: u32) -> Result<i64, Refusal>
    ensures { Answered index (inverse_quant number index) result }
{
    in_table(index)?;
    Ok(inverse_by(number, factors::table_at(index), factors::offset_at(index)))
}

// The magnitude m with the sign of z.
fn signed(z: i64, m: u64) -> i64
    requires { m < 2 ^ 63 }
    ensures { result ≡ signed z m }
{
    let n = m as i64;
    if z < 0 { -n } else { n }
}

// The largest i64, 2^63 - 1.
const LARGEST: u64 = 0x7FFF_FFFF_FFFF_FFFF;

// n, capped at 2^63 - 1.
fn cap(n: u64) -> u64
    ensures { (result ≡ cap n) × (result < 2 ^ 63) }
{
    // The bound and the cap are two numbers, so that the edit `least_uncapped` changes the bound alone.
    if n < LARGEST {
        n
    } else {
        0x7FFF_FFFF_FFFF_FFFF
    }
}

// A quotient and its remainder.
#[derive(Clone, Copy)]
struct Quotient {
    quotient: u64,
    remainder: u64,
}

// The quotient and the remainder of twice the dividend.
fn doubled(q: Quotient, f: u64) -> Quotient
    requires { (q.quotient < 2 ^ 63) × ((q.remainder < f) × (f < 2 ^ 63)) }
    ensures { Doubles f q result }
{
    let q2 = 2 * q.quotient;
    let r2 = 2 * q.remainder;
    if r2 < f {
        Quotient {
            quotient: q2,
            remainder: r2,
        }
    } else {
        Quotient {
            quotient: q2 + 1,
            remainder: r2 - f,
        }
    }
}

// Four times m over f: one division where four times m is a number of 64 bits, else a quotient and a remainder doubled
// twice.
fn four_over(m: u64, f: u64) -> u64
    requires { ((4 ≤ f) × (f < 2 ^ 63)) × (m ≤ 2 ^ 63) }
    ensures { result ≡ 4 * m / f }
{
    if f == 4 {
        return m;
    }
    if m < 0x4000_0000_0000_0000 {
        return 4 * m / f;
    }
    let once = Quotient {
        quotient: m / f,
        remainder: m % f,
    };
    let four = doubled(doubled(once, f), f);
    four.quotient
}

// Four times c over the factor f, truncated and capped. For the layers above.
pub fn forward_by(c: i64, f: u64) -> i64
    requires { (4 ≤ f) × (f < 2 ^ 63) }
    ensures { result ≡ forward_by f c }
{
    let m = codewords::unsigned_abs(c);
    signed(c, cap(four_over(m, f)))
}

// How far forward_by's number is from 0, where nothing is capped; without a division where it is 0. For the layers
// above.
pub fn forward_size(c: i64, f: u64) -> u64
    requires { ((4 ≤ f) × (f < 2 ^ 63)) × (nat_abs c < 2 ^ 60) }
    ensures { (result ≡ nat_abs (forward_by f c)) × (result ≤ 2 ^ 60) }
{
    let m = codewords::unsigned_abs(c);
    if f == 4 {
        return m;
    }
    if 4 * m < f { 0 } else { 4 * m / f }
}

// forward_by where nothing is capped; without a division where it is 0. For the layers above.
pub fn forward_small(c: i64, f: u64) -> i64
    requires { ((4 ≤ f) × (f < 2 ^ 63)) × (nat_abs c < 2 ^ 60) }
    ensures { result ≡ forward_by f c }
{
    signed(c, forward_size(c, f))
}

// The place of the leading one of n / f, without the quotient: f is shifted until its leading one stands where n's
// does; where it is then above n, the place is one lower.
fn quotient_log2(n: u64, f: u64) -> u32
    requires { (0 < f) × (f ≤ n) }
    ensures { result ≡ log2 (n / f) }
{
    let d = u64::leading_zeros(f) - u64::leading_zeros(n);
    if n < (f << d) { d - 1 } else { d }
}

// How many bits the code word of forward_by's number has, without the quotient: the number's magnitude and one are (4
// |c| + f) / f. For the layers above.
pub fn forward_len_by(c: i64, f: u64) -> u32
    requires { ((4 ≤ f) × (f < 2 ^ 63)) × (nat_abs c < 2 ^ 60) }
    ensures { result ≡ length (code_s (forward_by f c)) }
{
    let n = 4 * codewords::unsigned_abs(c) + f;
    let e = quotient_log2(n, f);
    if e == 0 { 1 } else { 2 * e + 2 }
}

// A product, capped.
fn capped_mul(a: u64, b: u64) -> u64
    ensures { (result ≡ cap (a * b)) × (result < 2 ^ 63) }
{
    cap(a.saturating_mul(b))
}

// The number q rebuilt at the factor f and the offset off. For the layers above.
pub fn inverse_by(q: i64, f: u64, off: u64) -> i64
    requires { (4 ≤ f) × (off < 2 ^ 63) }
    ensures { result ≡ inverse_by f off q }
{
    let m = codewords::unsigned_abs(q);
    if m == 0 {
        return 0;
    }
    let product = capped_mul(cap(m), f);
    let sum = cap(cap(product + off) + 2);
    signed(q, sum / 4)
}
