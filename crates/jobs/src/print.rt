// What the program prints, as text in a lent slice. Each put moves the place at behind what it has written.
ghost use Rattle.std.specs.Prelude.{◌≡◌, cond, [], ◌∷◌, ◌++◌, ◌+◌, ◌*◌, ◌≤◌, ◌<◌, length, Ok};
ghost use Rattle.laws.specs.Code.Laid.{Lays};
ghost use Rattle.unit.specs.Outcome.{tells, length_in};
ghost use Rattle.jobs.specs.Job.{decimal, line_of, hex_digit, bytes_from, unit_in, job_text};
ghost use Rattle.jobs.specs.Code.Steps.{chunk};

use unit::{Answer, Coded};

fn put(text: &mut [u8], at: &mut usize, c: u8)
    requires { at.old < length text.old }
    ensures { Lays text.old at.old (c ∷ []) text.new at.new }
{
    text[*at] = c;
    *at += 1;
}

// n in decimal digits.
fn put_number(text: &mut [u8], at: &mut usize, n: u32)
    requires { at.old + length (decimal n) ≤ length text.old }
    ensures { Lays text.old at.old (decimal n) text.new at.new }
{
    if n < 10 {
        put(text, at, b'0' + n as u8);
    } else {
        put_number(text, at, n / 10);
        put(text, at, b'0' + (n % 10) as u8);
    }
}

// n and a byte behind it.
fn put_value(text: &mut [u8], at: &mut usize, n: u32, behind: u8)
    requires { at.old + 11 ≤ length text.old }
    ensures { Lays text.old at.old (decimal n ++ (behind ∷ [])) text.new at.new × (at.new ≤ at.old + 11) }
{
    put_number(text, at, n);
    put(text, at, behind);
}

fn digit(v: u8) -> u8
    requires { v < 16 }
    ensures { result ≡ hex_digit v }
{
    if v < 10 { b'0' + v } else { b'A' + (v - 10) }
}

// A line feed where last is set, else a space.
fn gap(last: bool) -> u8
    ensures { result ≡ cond last 10 32 }
{
    if last { b'\n' } else { b' ' }
}

// A byte in two hexadecimal digits, and a line feed or a space behind it.
fn put_byte(text: &mut [u8], at: &mut usize, b: u8, last: bool)
    requires { at.old + 3 ≤ length text.old }
    ensures { Lays text.old at.old (chunk b last) text.new at.new }
{
    put(text, at, digit(b / 16));
    put(text, at, digit(b % 16));
    put(text, at, gap(last));
}

// The bytes, 16 a line.
fn put_bytes(text: &mut [u8], at: &mut usize, bytes: &[u8])
    requires { at.old + 3 * length bytes.now ≤ length text.old }
    ensures { Lays text.old at.old (bytes_from 0 bytes.now) text.new at.new }
{
    for (i, b) in bytes.iter().enumerate() {
        put_byte(text, at, *b, (i % 16 == 15) | (i + 1 == bytes.len()));
    }
}

// The line of a malformed job, and where it ends.
pub(crate) fn put_job(text: &mut [u8]) -> usize
    requires { 4 ≤ length text.old }
    ensures { Lays text.old 0 job_text text.new result }
{
    text[..4].copy_from_slice(b"job\n");
    4
}

// An accepted call's line.
fn put_coded(text: &mut [u8], at: &mut usize, c: Coded)
    requires { at.old + 44 ≤ length text.old }
    ensures { Lays text.old at.old (line_of (tells (Ok c))) text.new at.new × (at.new ≤ at.old + 44) }
{
    put_value(text, at, 0, b' ');
    put_value(text, at, c.written, b' ');
    put_value(text, at, c.cut_slices, b' ');
    put_value(text, at, c.slice_size_scaler, b'\n');
}

// The answer's line, and the unit that an accepted call has written to out; where they end.
pub(crate) fn put_answer(text: &mut [u8], r: Answer, out: &[u8]) -> usize
    requires { (length_in r ≤ length out.now) × (44 + 3 * length_in r ≤ length text.old) }
    ensures { Lays text.old 0 (line_of (tells r) ++ bytes_from 0 (unit_in r out.now)) text.new result × (result ≤ length text.new) }
{
    let mut at = 0;
    match r {
        Err(e) => put_value(text, &mut at, e.number(), b'\n'),
        Ok(c) => {
            put_coded(text, &mut at, c);
            put_bytes(text, &mut at, &out[..c.written as usize]);
        }
    }
    at
}
