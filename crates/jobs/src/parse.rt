// A job's words, taken apart.
ghost use Rattle.std.specs.Prelude.{◌≡◌, ℕ, false, map, ◌+◌, ◌*◌, ◌≤◌, ◌<◌, length, drop};
ghost use Rattle.laws.specs.Code.Laid.{Lays};
ghost use Rattle.unit.specs.Refusal.{any_above};
ghost use Rattle.jobs.specs.Job.{words_of, kind_of, content_of, is_end, in_order};
ghost use Rattle.jobs.specs.Code.Steps.{word_from, run_end, ends_of, counted};

// Where the words of each kind end: settings, matrix, luma and the two colours.
#[derive(Clone, Copy)]
pub(crate) struct Ends {
    pub settings: usize,
    pub matrix: usize,
    pub y: usize,
    pub c1: usize,
    pub c2: usize,
}

// The word whose bytes stand from i on.
fn word_at(bytes: &[u8], i: usize) -> u32
    requires { i + 4 ≤ length bytes.now }
    ensures { result ≡ word_from bytes.now i }
{
    u32::from_be_bytes([bytes[i], bytes[i + 1], bytes[i + 2], bytes[i + 3]])
}

// The whole words of bytes, and how many there are.
pub(crate) fn unpack(bytes: &[u8], words: &mut [u32]) -> usize
    requires { length bytes.now ≤ 4 * length words.old }
    ensures { Lays words.old 0 (words_of bytes.now) words.new result }
{
    let n = bytes.len() / 4;
    for i in 0..n {
        words[i] = word_at(bytes, 4 * i);
    }
    n
}

fn kind_of(word: u32) -> u32
    ensures { result ≡ kind_of word }
{
    word / 0x1000_0000
}

fn content_of(word: u32) -> u32
    ensures { result ≡ content_of word }
{
    word % 0x1000_0000
}

// Where the words of a kind that stand from from on end.
fn run_end(words: &[u32], from: usize, kind: u32) -> usize
    requires { from ≤ length words.now }
    ensures { (result ≡ run_end kind words.now from) × (result ≤ length words.now) }
{
    from + words[from..]
        .iter()
        .take_while(|w| kind_of(**w) == kind)
        .count()
}

// Where the words of each kind end.
pub(crate) fn ends_of(words: &[u32]) -> Ends
    ensures { result ≡ ends_of words.now }
{
    let settings = run_end(words, 0, 0);
    let matrix = run_end(words, settings, 1);
    let y = run_end(words, matrix, 2);
    let c1 = run_end(words, y, 3);
    Ends {
        settings,
        matrix,
        y,
        c1,
        c2: run_end(words, c1, 4),
    }
}

// Whether a content is above 65,535.
fn any_above(words: &[u32]) -> bool
    ensures { result ≡ any_above 65535 (map content_of words.now) }
{
    words.iter().any(|w| content_of(*w) > 65535)
}

// Whether the words are the one last word.
fn is_end(words: &[u32]) -> bool
    ensures { result ≡ is_end words.now }
{
    matches!(words, [0xF000_0000])
}

// Whether lossless has rate number 0, matrix words stand only where custom is 1, and there are at most 64 of them and
// 4,096 sample words.
fn counted(rate: u32, number: u32, custom: u32, matrix: usize, samples: usize) -> bool
    ensures { result ≡ counted rate number custom matrix samples }
{
    ((rate != 0) | (number == 0))
        & (matrix <= 64)
        & ((custom != 0) | (matrix == 0))
        & (samples <= 4096)
}

// Whether the job is well formed.
#[tactic(auto, using(crate::specs::Laws::Parse::ends_rise, crate::specs::Laws::Parse::words_enough))]
pub(crate) fn well_formed(words: &[u32], e: Ends) -> bool
    requires { e ≡ ends_of words.now }
    ensures { result ≡ in_order words.now }
{
    let settings = e.settings;
    let matrix = e.matrix;
    let end = e.c2;
    if !words::known(&words[..settings]) {
        return false;
    }
    if !is_end(&words[end..]) {
        return false;
    }
    if !counted(
        words[9],
        words[10],
        words[18],
        matrix - settings,
        end - matrix,
    ) {
        return false;
    }
    !any_above(&words[settings..end])
}

// The contents of the words, each as of gives it, laid from the front of numbers on; value says what of gives.
fn load<T: Copy, F: Fn(u32) -> T>(words: &[u32], numbers: &mut [T], of: F)
    ghost value: { ℕ → T }
    requires room { length words.now ≤ length numbers.old }
    requires callable { F.IsAlwaysCallable of }
    requires exact { (content : ℕ) (r : T) → F.post of content r → r ≡ value content }
    ensures { Lays numbers.old 0 (map value (map content_of words.now)) numbers.new (length words.now) }
{
    for i in 0..words.len() {
        numbers[i] = of(content_of(words[i]));
    }
}

// The contents of the words, laid from the front of matrix on.
pub(crate) fn load_matrix(words: &[u32], matrix: &mut [u32])
    requires { length words.now ≤ length matrix.old }
    ensures { Lays matrix.old 0 (map content_of words.now) matrix.new (length words.now) }
{
    load(words, matrix, |content| content)
}

// The contents of the words, laid from the front of samples on.
pub(crate) fn load_samples(words: &[u32], samples: &mut [u16])
    requires { (length words.now ≤ length samples.old) × (any_above 65535 (map content_of words.now) ≡ false) }
    ensures { Lays samples.old 0 (map content_of words.now) samples.new (length words.now) }
{
    load(words, samples, |content| (content % 65536) as u16)
}
