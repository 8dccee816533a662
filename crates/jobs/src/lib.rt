// The job program's parts, for its main and for replay: a job's words taken apart, the call, and the text.
#![tactic(auto)]

pub mod encode;
pub mod input;
mod parse;
mod print;
