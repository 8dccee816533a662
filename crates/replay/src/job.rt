// Cases of jobs: what a recorded job prints.
ghost use Rattle.std.specs.Prelude.{◌+◌, ◌*◌, ◌/◌, ◌≤◌, ◌<◌, length, IfOk};

use crate::case::{Judged, Malformed};

// Bytes packed eight to a word, high byte first.
#[derive(Clone, Copy)]
struct Packed<'a> {
    words: &'a [u64],
    len: usize,
    ghost within: { len ≤ 8 * length words.now },
}

impl<'a> Packed<'a> {
    // At most most bytes from the front of the words, how many they are and packed, and the words behind them.
    fn take(w: &'a [u64], most: usize) -> Result<(Packed<'a>, &'a [u64]), Malformed>
        ensures { IfOk result (λ r. r.0.len ≤ most) }
    {
        let [n, rest @ ..] = w else {
            return Err(Malformed);
        };
        let len = *n as usize;
        if len > most || rest.len() < len.div_ceil(8) {
            return Err(Malformed);
        }
        let (words, behind) = rest.split_at(len.div_ceil(8));
        Ok((Packed { words, len }, behind))
    }

    fn byte(self, i: usize) -> u8
        requires { i < self.len }
    {
        self.words[i / 8].to_be_bytes()[i % 8]
    }

    // The bytes, laid from the front of bytes on.
    fn unpack(self, bytes: &mut [u8])
        requires { self.len ≤ length bytes.old }
    {
        for i in 0..self.len {
            bytes[i] = self.byte(i);
        }
    }

    // Whether the bytes are the text.
    fn is(self, text: &[u8]) -> bool {
        if text.len() != self.len {
            return false;
        }
        for i in 0..self.len {
            if self.byte(i) != text[i] {
                return false;
            }
        }
        true
    }
}

// What the job prints: how long it is.
fn printed(bytes: &[u8], text: &mut [u8]) -> usize
    requires { (length bytes.now ≤ 16732) × (24640 ≤ length text.old) }
    ensures { result ≤ length text.new }
{
    let mut words = [0u32; 4183];
    let mut matrix = [0u32; 64];
    let mut samples = [0u16; 4096];
    let mut work = [0i64; 6144];
    let mut out = [0u8; 8192];
    jobs::encode::run(
        bytes,
        &mut words,
        &mut matrix,
        &mut samples,
        &mut work,
        &mut out,
        text,
    )
}

// Whether the job prints what was recorded.
fn run(job: Packed<'_>, recorded: Packed<'_>) -> bool
    requires { job.len ≤ 16732 }
{
    let mut bytes = [0u8; 16732];
    let mut text = [0u8; 24640];
    job.unpack(&mut bytes);
    let n = printed(&bytes[..job.len], &mut text);
    recorded.is(&text[..n])
}

pub(crate) fn job(w: &[u64]) -> Judged {
    let (job, rest) = Packed::take(w, 16732)?;
    let (recorded, rest) = Packed::take(rest, 24640)?;
    if !rest.is_empty() {
        return Err(Malformed);
    }
    Ok(run(job, recorded))
}
