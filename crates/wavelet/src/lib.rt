// The wavelet layer: the analysis of rows and planes (wavelet.rs, and the analysis of transform.rs).
#![tactic(auto)]

ghost use Rattle.refusals.specs.Number.{number_of};
ghost use Rattle.wavelet.specs.RowCall.{Analysed};

mod arith;
pub mod component;
pub mod depth;
mod lift;
pub mod pad;
mod plane;
mod shape;
mod stage;

use refusals::Refusal;

// The analysis of a row by a wavelet index, in place: refused, with the row unchanged, where there is no such index and
// where the row is too long. Open to the box.
pub fn oned_analysis(row: &mut [i64], index: u32) -> Result<(), Refusal>
    ensures { Analysed index row.old row.new (number_of result) }
{
    if index > 6 {
        return Err(Refusal::Wavelets);
    }
    if row.len() > 65536 {
        return Err(Refusal::Row);
    }
    lift::analyse(row, index as usize);
    Ok(())
}
