// What comes before coding: sizes, the matrix of a call, refusals, and the header.
pub(crate) mod header;
pub(crate) mod matrix;
pub(crate) mod refusal;
pub(crate) mod sizes;
