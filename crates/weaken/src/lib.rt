//! Weak locks put into a code: the regions in which the accesses of its race pairs are guarded, each at its grain, and
//! the instructions that take and give their locks.
//!
//! Its contract: `weaken` is `weakened`, and valid where it is made of the analyses' answers.
//! It knows nothing of how pairs, ranges and grains were found.
#![tactic(auto)]

mod access;
mod copies;
mod grouping;
mod locks;
mod places;
mod plan;
mod spans;
mod stretches;
mod stripes;
mod weakening;
mod writing;

pub use weakening::weaken;
