//! The grain at which each racy access is guarded, by the race pairs, the known ranges and a profile. A law says that
//! there is one answer.
//!
//! Its contract: `choose` is `AreGrains`.
//! It knows nothing of how pairs and ranges were found.
#![tactic(auto)]

mod accesses;
mod blocks;
mod laws;
mod loops;
mod rows;
mod seen;

pub use laws::law_one_list_of_grains;
pub use rows::choose;

#[cfg(test)]
mod tests;
