// Why a call is turned away: document 01, "Answers that turn a call away"; document 02, (iii).
#![tactic(auto)]

ghost use Rattle.std.specs.Prelude.{◌≡◌};
ghost use Rattle.refusals.specs.Number.{number, number_of};

// A rule that a call breaks. Each stands for the document's number of it.
#[derive(Clone, Copy, Debug, PartialEq, Eq)]
pub enum Refusal {
    // A wavelet index is above 6.
    Wavelets = 1,
    // The two depths sum to more than their wavelets allow.
    Depths = 2,
    // Slices across, down or in all are none or too many.
    Slices = 3,
    // The scaler or the prefix bytes are out of range.
    Sizes = 4,
    // Low delay without a picture's bytes.
    NoTarget = 5,
    // An index is above 255.
    Index = 6,
    // A picture's bytes are too many.
    Target = 7,
    // Format, mode, frame or excursions are out of range, or a component has no sample.
    Frame = 8,
    // A custom matrix has another count of values, or one above 255.
    Matrix = 9,
    // Annex D has no matrix.
    NoMatrix = 10,
    // Luma's padded area is too large.
    Area = 11,
    // A plane has another length.
    Planes = 12,
    // The work slice is too short.
    Work = 13,
    // The unit is longer than the output, or than 4,294,967,295 bytes.
    Unit = 14,
    // A row is too long.
    Row = 15,
}

impl Refusal {
    // The document's number.
    pub fn number(self) -> u32
        ensures { result ≡ number self }
    {
        self as u32
    }
}

// The number of an answer: 0, or the refusal's.
pub fn number_of<T: Copy>(r: Result<T, Refusal>) -> u32
    ensures { result ≡ number_of r }
{
    match r {
        Ok(_) => 0,
        Err(e) => e.number(),
    }
}
