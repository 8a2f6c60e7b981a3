//! The pairs of accesses that may race, by what registers may point to and by the summaries of the functions with which
//! threads may begin.
//!
//! Its contract: `pairs` is `ArePairs`.
//! It knows nothing of how its facts were found.
#![tactic(auto)]

mod access;
mod alike;
mod found;
mod grouping;
mod meeting;
mod race;
mod ranks;
mod roots;
mod touch;

pub use race::pairs;
