// Words, packed bytes, and what comes of a case.
ghost use Rattle.std.specs.Prelude.{◌≡◌, ◌*◌, ◌≤◌, length, IfOk};

use std::num::TryFromIntError;

// Words that are no case.
#[derive(Clone, Copy, Debug, PartialEq, Eq)]
pub(crate) struct Malformed;

impl From<TryFromIntError> for Malformed {
    fn from(_e: TryFromIntError) -> Malformed {
        Malformed
    }
}

// Whether what came out is what was recorded.
pub(crate) type Judged = Result<bool, Malformed>;

// The word of eight bytes, high byte first.
pub(crate) fn word(b: &[u8]) -> u64
    requires { length b.now ≡ 8 }
{
    u64::from_be_bytes([b[0], b[1], b[2], b[3], b[4], b[5], b[6], b[7]])
}

// The words of bytes.
pub(crate) fn unpack(bytes: &[u8], words: &mut [u64])
    requires { 8 * length words.old ≤ length bytes.now }
    ensures { length words.new ≡ length words.old }
{
    for i in 0..words.len() {
        words[i] = word(&bytes[8 * i..8 * i + 8]);
    }
}

// A number from low to most.
pub(crate) fn within(v: u64, low: u32, most: u32) -> Result<u32, Malformed>
    ensures { IfOk result (λ n. (low ≤ n) × (n ≤ most)) }
{
    let n = u32::try_from(v)?;
    if n < low || n > most {
        return Err(Malformed);
    }
    Ok(n)
}
