// What a slice's numbers cost, in bits.
ghost use Rattle.std.specs.Prelude.{◌≡◌};
ghost use Rattle.picture.specs.Code.Cost.{no_cost, add_len, add1, Countable};
ghost use Rattle.picture.specs.Code.Counter.{cost_counts};

use crate::slices::counter::Counter;
use crate::slices::strip::Strip;

// The bits and the count of the numbers so far, the same up to the last number that is not 0, and of the longest run
// from the start that takes at most room bits.
#[derive(Clone, Copy)]
pub(crate) struct Cost {
    pub room: u64,
    pub bits: u64,
    pub count: usize,
    pub kept_bits: u64,
    pub keep: usize,
    pub fit_bits: u64,
    pub fit: usize,
}

// The cost of no number, with room for a run.
pub(crate) fn no_cost(room: u64) -> Cost
    ensures { result ≡ no_cost room }
{
    Cost {
        room,
        bits: 0,
        count: 0,
        kept_bits: 0,
        keep: 0,
        fit_bits: 0,
        fit: 0,
    }
}

impl Cost {
    // With one number more, whose code word has n bits: one bit is the number 0.
    #[tactic(auto, unfolding(crate::specs::Code::Cost::fitted, crate::specs::Code::Cost::kept))]
    fn add_len(self, n: u32) -> Cost
        requires { Countable self 1 }
        ensures { result ≡ add_len self n }
    {
        let bits = self.bits + n as u64;
        let count = self.count + 1;
        let kept = if n == 1 {
            self
        } else {
            Cost {
                kept_bits: bits,
                keep: count,
                ..self
            }
        };
        let all = Cost {
            bits,
            count,
            ..kept
        };
        if bits <= self.room {
            Cost {
                fit_bits: bits,
                fit: count,
                ..all
            }
        } else {
            all
        }
    }
}

impl Counter for Cost {
    ghost step = { add1 };

    ghost bits = { λ c. c.bits };

    ghost count = { λ c. c.count };

    ghost takes = { λ predicted. Unit {0} };

    ghost plain = { tt };

    ghost laws = { cost_counts };

    fn add_number(
        self,
        work: &[i64],
        s: Strip,
        coefs: usize,
        base: usize,
        y: usize,
        x: usize,
    ) -> Cost {
        self.add_len(crate::slices::strip::number_len(work, s, coefs, base, y, x))
    }
}
