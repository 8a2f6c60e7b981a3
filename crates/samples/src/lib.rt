//! What the tests of `jobs` and those of the program share: sources and logs written by hand, with what is told of them, shelves
//! that hold them, and what a call is given of the outside, as values. It stands on `rr_base` and `crew`, and no program calls it.
#![tactic(auto)]

pub mod bank;
pub mod logs;
pub mod outside;
pub mod runs;
pub mod shelves;
pub mod sources;
pub mod weak_runs;
