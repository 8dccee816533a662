// A low-delay slice: its size, its index by trials, the cut, and its bytes.
pub(crate) mod bracket;
pub(crate) mod cut;
pub(crate) mod election;
pub(crate) mod put;
pub(crate) mod size;
pub(crate) mod slice;
pub(crate) mod trial;
