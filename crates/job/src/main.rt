// The job program: a job of 32-bit words on standard input, what comes of it on standard output.
//
// A word has its kind in its top four bits and its content in the others, high byte first. Kind 0: the 21 settings;
// then kinds 1 matrix, 2 luma, 3 and 4 colour, one number a word; one last word of kind 15, content 0. A malformed job
// prints `job`, a refusal its number, and an accepted one 0, length, cut slices and scaler on one line, and then the
// unit's bytes, 16 a line.
#![tactic(auto)]

use jobs::input::read_full;
use std::io::{self, Write};

fn main(rt: HostRuntime) -> io::Result<()> {
    // One word more than the longest job has: what is longer is malformed.
    let mut bytes = [0u8; 16732];
    let mut words = [0u32; 4183];
    let mut matrix = [0u32; 64];
    let mut samples = [0u16; 4096];
    let mut work = [0i64; 6144];
    let mut out = [0u8; 8192];
    let mut text = [0u8; 24640];
    let mut input = rt.reader();
    let got = read_full(&mut input, &mut bytes)?;
    let n = jobs::encode::run(
        &bytes[..got],
        &mut words,
        &mut matrix,
        &mut samples,
        &mut work,
        &mut out,
        &mut text,
    );
    let mut output = io::writer(&rt);
    output.write_all(&text[..n])
}
