// A job, from its bytes to its text.
ghost use Rattle.std.specs.Prelude.{◌≡◌, true, ◌*◌, ◌-◌, ◌≤◌, length, take, drop};
ghost use Rattle.laws.specs.Code.Laid.{Lays};
ghost use Rattle.unit.specs.Three.{planes};
ghost use Rattle.unit.specs.Encoded.{Encodes};
ghost use Rattle.jobs.specs.Job.{in_order, printed};
ghost use Rattle.jobs.specs.Code.Steps.{ends_of, Called, printed_by};

use crate::parse::Ends;
use unit::{Answer, Settings};

// The picture call: luma up to y, the first colour up to c1, then the second.
fn encode(
    s: Settings,
    matrix: &[u32],
    samples: &[u16],
    y: usize,
    c1: usize,
    work: &mut [i64],
    out: &mut [u8],
) -> Answer
    requires { (y ≤ c1) × (c1 ≤ length samples.now) }
    ensures { Encodes s matrix.now (planes (take y samples.now) (take (c1 - y) (drop y samples.now)) (drop c1 samples.now))
        out.old work.old out.new work.new result }
{
    picture::encoder::encode_picture(
        s,
        matrix,
        &samples[..y],
        &samples[y..c1],
        &samples[c1..],
        work,
        out,
    )
}

// The call of a well-formed job. matrix and samples are scratch.
#[tactic(auto, using(crate::specs::Laws::Parse::ends_rise, crate::specs::Laws::Parse::parts_few))]
fn call(
    words: &[u32],
    e: Ends,
    matrix: &mut [u32],
    samples: &mut [u16],
    work: &mut [i64],
    out: &mut [u8],
) -> Answer
    requires { (e ≡ ends_of words.now) × ((in_order words.now ≡ true) × ((64 ≤ length matrix.old) × (4096 ≤ length samples.old))) }
    ensures { Called words.now out.old work.old out.new work.new result }
{
    let settings = e.settings;
    let few = e.matrix;
    let end = e.c2;
    let m = few - settings;
    let n = end - few;
    let s = words::settings_of(&words[..settings]);
    crate::parse::load_matrix(&words[settings..few], matrix);
    crate::parse::load_samples(&words[few..end], samples);
    encode(
        s,
        &matrix[..m],
        &samples[..n],
        e.y - few,
        e.c1 - few,
        work,
        out,
    )
}

// What the job of these words prints, at the text's start, and where that ends. matrix and samples are scratch.
fn run_words(
    words: &[u32],
    matrix: &mut [u32],
    samples: &mut [u16],
    work: &mut [i64],
    out: &mut [u8],
    text: &mut [u8],
) -> usize
    requires { (64 ≤ length matrix.old) × ((4096 ≤ length samples.old) × ((length out.old ≤ 8192) × (24640 ≤ length text.old))) }
    ensures { Lays text.old 0 (printed_by words.now out.old work.old) text.new result × (result ≤ length text.new) }
{
    let e = crate::parse::ends_of(words);
    if !crate::parse::well_formed(words, e) {
        return crate::print::put_job(text);
    }
    let r = call(words, e, matrix, samples, work, out);
    crate::print::put_answer(text, r, out)
}

// What the job in bytes prints, at the text's start, and how long it is, with 6,144 numbers of work and 8,192 bytes of
// output. What is left in the lent slices is open, but for the text's first r bytes.
pub fn run(
    bytes: &[u8],
    words: &mut [u32],
    matrix: &mut [u32],
    samples: &mut [u16],
    work: &mut [i64],
    out: &mut [u8],
    text: &mut [u8],
) -> usize
    requires { (length bytes.now ≤ 4 * length words.old) × ((64 ≤ length matrix.old) × ((4096 ≤ length samples.old)
        × (((length out.old ≡ 8192) × (length work.old ≡ 6144)) × (24640 ≤ length text.old)))) }
    ensures { (take result text.new ≡ printed bytes.now out.old work.old) × (result ≤ length text.new) }
{
    if bytes.len() % 4 != 0 {
        return crate::print::put_job(text);
    }
    let n = crate::parse::unpack(bytes, words);
    run_words(&words[..n], matrix, samples, work, out, text)
}
