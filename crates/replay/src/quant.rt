// Cases of the quantiser and the default matrices.
use crate::case::{Judged, Malformed};
use refusals::Refusal;

// The answer is the recorded number and value.
fn agrees(a: Result<i64, Refusal>, number: u64, value: u64) -> bool {
    match a {
        Ok(z) => number == 0 && z == value.cast_signed(),
        Err(r) => number == u64::from(r.number()) && value == 0,
    }
}

// A call of an index.
pub(crate) fn index_case<F: Fn(u32) -> Result<i64, Refusal>>(w: &[u64], call: F) -> Judged
    requires { F.IsAlwaysCallable call }
{
    let [index, number, value] = w else {
        return Err(Malformed);
    };
    Ok(agrees(call(u32::try_from(*index)?), *number, *value))
}

// A call of a coefficient or a number, and an index.
pub(crate) fn number_case<F: Fn(i64, u32) -> Result<i64, Refusal>>(w: &[u64], call: F) -> Judged
    requires { F.IsAlwaysCallable call }
{
    let [x, index, number, value] = w else {
        return Err(Malformed);
    };
    Ok(agrees(
        call(x.cast_signed(), u32::try_from(*index)?),
        *number,
        *value,
    ))
}

// The matrix is the recorded values, with zeros behind them; none is found where none is recorded.
fn same_values(m: Option<[u32; 25]>, values: &[u64]) -> bool {
    let Some(m) = m else {
        return values.is_empty();
    };
    !values.is_empty()
        && m.iter().zip(values).all(|(a, b)| u64::from(*a) == *b)
        && m.iter().skip(values.len()).all(|a| *a == 0)
}

pub(crate) fn matrix(w: &[u64]) -> Judged {
    let [wavelet, wavelet_ho, depth, depth_ho, count, values @ ..] = w else {
        return Err(Malformed);
    };
    if values.len() > 25 || *count != values.len() as u64 {
        return Err(Malformed);
    }
    let m = quantiser::annex_d::default_quant_matrix(
        u32::try_from(*wavelet)?,
        u32::try_from(*wavelet_ho)?,
        u32::try_from(*depth)?,
        u32::try_from(*depth_ho)?,
    );
    Ok(same_values(m, values))
}
