// What slices of both kinds share: where their numbers stand in the work slice, what these cost, and the search for an
// index.
pub(crate) mod cost;
pub(crate) mod counter;
pub(crate) mod layout;
pub(crate) mod rebuild;
pub(crate) mod run;
pub(crate) mod search;
pub(crate) mod strip;
pub(crate) mod tally;
