//! The summaries of functions: the locks at each function's exit, relative to its entry, and the accesses that it and
//! those it calls make, with the locks at each.
//!
//! Its contract: `summaries` is `AreSummaries`.
//! It knows nothing of where data's pointers point.
#![tactic(auto)]

mod compare;
mod exits;
mod guarded;
mod names;
mod rows;
mod summary;
mod universe;
mod visits;

pub use summary::summaries;
