//! Where pointers may point: the constraints of a code, and the least sets that meet them.
//!
//! Its contract: `solve` is `IsPointsTo`.
//! It knows nothing of how locks and pairs are found.
#![tactic(auto)]

mod agenda;
mod ascending;
mod constraints;
mod filling;
mod globals;
mod least;
mod nodes;
mod sets;
mod tables;

pub use least::solve;
