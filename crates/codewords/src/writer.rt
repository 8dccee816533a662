// The writer of bits into a lent slice of bytes, high bits first. There must be room for what is put. Its methods have
// the writer lent by reference, and stand above private functions that take it by value and return the next one.
ghost use Rattle.std.specs.Prelude.{◌≡◌, ◌+◌, ◌-◌, ◌*◌, ◌≤◌, ◌<◌, ◌^◌, true, [], ◌∷◌, ◌++◌, length};
ghost use Rattle.laws.specs.Code.Laid.{laid};
ghost use Rattle.codewords.specs.Bit.{lit, one_bits};
ghost use Rattle.codewords.specs.Bytes.{to_bytes, padding};
ghost use Rattle.codewords.specs.CodeWord.{interleaved, code_u, code_m, code_s};
ghost use Rattle.codewords.specs.Code.Spread.{spread_bits};
ghost use Rattle.codewords.specs.Code.Writer.{Room, Wrote, Flushes, Aligns};

// The place where the bits pending go, these bits, and how many they are: fewer than 32.
#[derive(Clone, Copy)]
pub struct BitWriter {
    pub at: usize,
    pub pending: u64,
    pub pending_bits: u32,
}

impl BitWriter {
    // Nothing is pending, and bits go to place at on.
    pub fn new(at: usize) -> BitWriter
        ensures { (result.at ≡ at) × ((result.pending ≡ 0) × (result.pending_bits ≡ 0)) }
    {
        BitWriter {
            at,
            pending: 0,
            pending_bits: 0,
        }
    }

    // Puts one bit.
    pub fn put_bit(&mut self, out: &mut [u8], bit: bool)
        requires { Room out.old self.old 1 }
        ensures { Wrote out.old self.old (bit ∷ []) out.new self.new }
    {
        *self = put_short(out, *self, bit as u64, 1);
    }

    // Puts the n low bits of v.
    pub fn put_nbits(&mut self, out: &mut [u8], v: u64, n: u32)
        requires { Room out.old self.old n × (n ≤ 64) }
        ensures { Wrote out.old self.old (lit n v) out.new self.new }
    {
        if n <= 32 {
            *self = put_short(out, *self, v, n);
        } else {
            *self = put_short(out, *self, v >> 32, n - 32);
            *self = put_short(out, *self, v, 32);
        }
    }

    // Puts the unsigned code word of v.
    pub fn put_uint(&mut self, out: &mut [u8], v: u32)
        requires { Room out.old self.old (length (code_u v)) }
        ensures { Wrote out.old self.old (code_u v) out.new self.new }
    {
        *self = put_code(out, *self, v as u64 + 1);
    }

    // Puts the signed code word of v.
    pub fn put_sint(&mut self, out: &mut [u8], v: i64)
        requires { Room out.old self.old (length (code_s v)) }
        ensures { Wrote out.old self.old (code_s v) out.new self.new }
    {
        self.put_signed(out, crate::unsigned_abs(v), v < 0);
    }

    // Puts the signed code word of the magnitude m, below 0 where minus is set.
    pub fn put_signed(&mut self, out: &mut [u8], m: u64, minus: bool)
        requires { Room out.old self.old (length (code_m m minus)) × (m ≤ 2 ^ 63) }
        ensures { Wrote out.old self.old (code_m m minus) out.new self.new }
    {
        if m < 511 {
            let c = word_of(m, minus);
            *self = put_short(out, *self, c.bits, c.len);
        } else {
            *self = put_code(out, *self, m + 1);
            self.put_bit(out, minus);
        }
    }

    // Lays the whole bytes of the bits pending over the output.
    pub fn flush(&mut self, out: &mut [u8])
        requires { Room out.old self.old 0 }
        ensures { Flushes out.old self.old out.new self.new }
    {
        while 8 <= self.pending_bits {
            self.pending_bits -= 8;
            out[self.at] = ((self.pending >> self.pending_bits) % 256) as u8;
            self.at += 1;
        }
        self.pending %= 1 << self.pending_bits;
    }

    // Puts zeros up to the end of the byte; no bit is pending then.
    pub fn byte_align(&mut self, out: &mut [u8])
        requires { Room out.old self.old (padding self.old.pending_bits) }
        ensures { Aligns out.old self.old out.new self.new }
    {
        *self = put_short(out, *self, 0, (8 - self.pending_bits % 8) % 8);
        self.flush(out);
    }

    // Puts n ones.
    pub fn put_ones(&mut self, out: &mut [u8], n: u64)
        requires { Room out.old self.old n }
        ensures { Wrote out.old self.old (one_bits n) out.new self.new }
    {
        for _ in 0..n / 32 {
            *self = put_short(out, *self, 0xFFFF_FFFF, 32);
        }
        *self = put_short(out, *self, 0xFFFF_FFFF, (n % 32) as u32);
    }
}

// A code word as the low bits of a number, and how many bits it has.
#[derive(Clone, Copy)]
struct Word {
    bits: u64,
    len: u32,
}

// Writes x as four bytes, from place at on.
fn put_four(out: &mut [u8], at: usize, x: u32)
    requires { at + 4 ≤ length out.old }
    ensures { out.new ≡ laid out.old at (to_bytes (lit 32 x)) }
{
    out[at..at + 4].copy_from_slice(&x.to_be_bytes());
}

// Puts the n low bits of v, at most 32. Whole bytes go to the output by fours.
fn put_short(out: &mut [u8], w: BitWriter, v: u64, n: u32) -> BitWriter
    requires { Room out.old w n × (n ≤ 32) }
    ensures { Wrote out.old w (lit n v) out.new result }
{
    let size: u64 = 1 << n;
    let x = w.pending * size + v % size;
    let k = w.pending_bits + n;
    if k < 32 {
        BitWriter {
            pending: x,
            pending_bits: k,
            ..w
        }
    } else {
        let j = k - 32;
        put_four(out, w.at, (x >> j) as u32);
        BitWriter {
            at: w.at + 4,
            pending: x % (1 << j),
            pending_bits: j,
        }
    }
}

// The 8 low bits of b, each moved to twice its place.
fn spread(b: u64) -> u64
    ensures { (result ≡ spread_bits 8 b) × (result < 65536) }
{
    let a = b % 256;
    let x = (a | a << 4) & 0x0F0F;
    let y = (x | x << 2) & 0x3333;
    (y | y << 1) & 0x5555
}

// Puts the bits of x below place n, each after a 0, and then a 1.
fn put_interleaved(out: &mut [u8], w: BitWriter, x: u64, n: u32) -> BitWriter
    requires { Room out.old w (2 * n + 1) × (n < 64) }
    ensures { Wrote out.old w (interleaved (lit n x) ++ (true ∷ [])) out.new result }
{
    let mut i = n;
    let mut s = w;
    while 8 < i {
        i -= 8;
        s = put_short(out, s, spread(x >> i), 16);
    }
    put_short(out, s, 2 * spread(x) + 1, 2 * i + 1)
}

// Puts the unsigned code word of x - 1.
fn put_code(out: &mut [u8], w: BitWriter, x: u64) -> BitWriter
    requires { Room out.old w (length (code_u (x - 1))) × (0 < x) }
    ensures { Wrote out.old w (code_u (x - 1)) out.new result }
{
    put_interleaved(out, w, x, x.ilog2())
}

// The signed code word of a small magnitude m, below 0 where minus is set.
fn word_of(m: u64, minus: bool) -> Word
    requires { m < 511 }
    ensures { (lit result.len result.bits ≡ code_m m minus) × (result.len ≤ 18) }
{
    let n = (m + 1).ilog2();
    let word = 2 * spread(m + 1) + 1;
    if m == 0 {
        Word { bits: 1, len: 1 }
    } else {
        Word {
            bits: 2 * word + minus as u64,
            len: 2 * n + 2,
        }
    }
}
