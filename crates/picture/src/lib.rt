// The picture call, the port of encoder.rs: `encoder::encode_picture`. Its parts stand in rooms, and each room imports
// only from rooms before it: front, slices, high and low, coder, encoder.
#![tactic(auto)]

mod coder;
pub mod encoder;
mod front;
mod high;
mod low;
mod slices;
