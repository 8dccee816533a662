// A picture's slices one after another: analysis into the work slice, planning, and writing.
pub(crate) mod analysis;
pub(crate) mod passes;
pub(crate) mod plan;
pub(crate) mod slice_coder;
