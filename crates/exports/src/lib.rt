// Entry points for C and Rust callers; include/rumqeshi.h declares them. Each does what the call inside does. A slice
// is a pointer and a count, in this order.
#![tactic(auto)]

ghost use Rattle.std.specs.Prelude.{◌≡◌, pos, length};
ghost use Rattle.refusals.specs.Number.{number_of};
ghost use Rattle.codewords.specs.CodeWord.{code_u, code_s};
ghost use Rattle.quantiser.specs.Quant.{quant_factor, quant_offset, forward_quant, inverse_quant};
ghost use Rattle.wavelet.specs.RowCall.{Analysed};
ghost use Rattle.unit.specs.Three.{planes};
ghost use Rattle.exports.specs.Calls.{left_by, Gives, Picture};

use refusals::{Refusal, number_of};

// The number of an answer, whose value goes behind the reference; a refusal leaves what stands there.
fn give(r: Result<i64, Refusal>, value: &mut i64) -> u32
    ensures { (result ≡ number_of r) × (value.new ≡ left_by r value.old) }
{
    if let Ok(v) = r {
        *value = v;
    }
    number_of(r)
}

// How many bits the unsigned code word of v has.
#[unsafe(no_mangle)]
pub extern "C" fn vc2_uint_code_len(v: u32) -> u32
    ensures { result ≡ length (code_u v) }
{
    codewords::uint_code_len(v)
}

// How many bits the signed code word of v has.
#[unsafe(no_mangle)]
pub extern "C" fn vc2_sint_code_len(v: i64) -> u32
    ensures { result ≡ length (code_s v) }
{
    codewords::sint_code_len(v)
}

#[unsafe(no_mangle)]
pub extern "C" fn vc2_quant_factor(index: u32, value: &mut i64) -> u32
    ensures { Gives index (pos (quant_factor index)) value.old value.new result }
{
    give(quantiser::quant_factor(index), value)
}

#[unsafe(no_mangle)]
pub extern "C" fn vc2_quant_offset(index: u32, value: &mut i64) -> u32
    ensures { Gives index (pos (quant_offset index)) value.old value.new result }
{
    give(quantiser::quant_offset(index), value)
}

#[unsafe(no_mangle)]
pub extern "C" fn vc2_forward_quant(coeff: i64, index: u32, value: &mut i64) -> u32
    ensures { Gives index (forward_quant coeff index) value.old value.new result }
{
    give(quantiser::forward_quant(coeff, index), value)
}

#[unsafe(no_mangle)]
pub extern "C" fn vc2_inverse_quant(number: i64, index: u32, value: &mut i64) -> u32
    ensures { Gives index (inverse_quant number index) value.old value.new result }
{
    give(quantiser::inverse_quant(number, index), value)
}

// The analysis of a row in place: 0, or with the row unchanged 1 or 15.
#[unsafe(no_mangle)]
pub extern "C" fn vc2_oned_analysis(row: &mut [i64], index: u32) -> u32
    ensures { Analysed index row.old row.new result }
{
    number_of(wavelet::oned_analysis(row, index))
}

// The picture call, with the settings as 21 words in the job program's order: 0, a refusal's number, or 100 where the
// words are no settings. The values of an accepted call go behind the three references.
#[unsafe(no_mangle)]
pub extern "C" fn vc2_encode_picture(
    settings: &[u32],
    matrix: &[u32],
    y: &[u16],
    c1: &[u16],
    c2: &[u16],
    work: &mut [i64],
    out: &mut [u8],
    written: &mut u32,
    cut_slices: &mut u32,
    slice_size_scaler: &mut u32,
) -> u32
    ensures { Picture settings.now matrix.now (planes y.now c1.now c2.now)
        out.old work.old
        (record { written = written.old; cut = cut_slices.old; scaler = slice_size_scaler.old })
        (record {
          number = result;
          output = out.new;
          work = work.new;
          values = record { written = written.new; cut = cut_slices.new; scaler = slice_size_scaler.new };
        }) }
{
    if !words::known(settings) {
        return 100;
    }
    let s = words::settings_of(settings);
    let r = picture::encoder::encode_picture(s, matrix, y, c1, c2, work, out);
    if let Ok(c) = r {
        *written = c.written;
        *cut_slices = c.cut_slices;
        *slice_size_scaler = c.slice_size_scaler;
    }
    number_of(r)
}
