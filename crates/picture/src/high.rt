// A high-quality slice: its size, the election of its index, its numbers packed and its choice noted, and its bytes.
pub(crate) mod choice;
pub(crate) mod election;
pub(crate) mod notes;
pub(crate) mod packed;
pub(crate) mod plan;
pub(crate) mod size;
pub(crate) mod slice;
