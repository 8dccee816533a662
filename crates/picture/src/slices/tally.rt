// Bits and counts of a slice's numbers, with and without trailing zeros. Strips of the subbands behind the first are
// tallied here; the first subband is costed, and its cost becomes a tally (slices::run::first_tally).
ghost use Rattle.std.specs.Prelude.{◌≡◌, refl, false, ◌-◌, ◌≤◌};
ghost use Rattle.picture.specs.Code.Tally.{tally1, tally_len, tally_of, trimmed_by, Addable};
ghost use Rattle.picture.specs.Code.Counter.{tally_counts};

use crate::slices::cost::Cost;
use crate::slices::counter::Counter;
use crate::slices::strip::Strip;

// The bits and the count of the numbers so far, and the count up to the last number that is not 0.
#[derive(Clone, Copy)]
pub(crate) struct Tally {
    pub bits: u64,
    pub count: usize,
    pub keep: usize,
}

// A run without its trailing zeros: how many numbers, and their bits.
#[derive(Clone, Copy)]
pub(crate) struct Trimmed {
    pub count: usize,
    pub bits: u64,
}

// The tally of a cost.
impl From<Cost> for Tally {
    ghost from_gives = { λ c t. t ≡ tally_of c };

    fn from(c: Cost) -> Tally {
        Tally {
            bits: c.bits,
            count: c.count,
            keep: c.keep,
        }
    }
}

// The run of a tally without its trailing zeros, each of which has one bit.
pub(crate) fn trimmed_of(t: Tally) -> Trimmed
    requires { (t.keep ≤ t.count) × (t.count - t.keep ≤ t.bits) }
    ensures { result ≡ trimmed_by t }
{
    Trimmed {
        count: t.keep,
        bits: t.bits - (t.count - t.keep) as u64,
    }
}

impl Tally {
    // With one number more, whose code word has n bits: one bit is the number 0.
    fn add_len(self, n: u32) -> Tally
        requires { Addable self 1 }
        ensures { result ≡ tally_len self n }
    {
        let count = self.count + 1;
        Tally {
            bits: self.bits + n as u64,
            count,
            keep: if n == 1 { self.keep } else { count },
        }
    }
}

impl Counter for Tally {
    ghost step = { tally1 };

    ghost bits = { λ t. t.bits };

    ghost count = { λ t. t.count };

    // A coefficient that is not predicted is its own residual.
    ghost takes = { λ predicted. predicted ≡ false };

    ghost plain = { refl };

    ghost laws = { tally_counts };

    fn add_number(
        self,
        work: &[i64],
        s: Strip,
        coefs: usize,
        _base: usize,
        y: usize,
        x: usize,
    ) -> Tally {
        let d = crate::slices::strip::coefficient(work, s, coefs, y, x);
        self.add_len(quantiser::forward_len_by(d, s.factor))
    }
}
