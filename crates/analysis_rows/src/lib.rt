//! Rows of the analyses: codes written by hand, and what is found of each. It stands on `points_to`, `lockset_flow`,
//! `lockset_summary`, `race_pairs` and what is below them, and has tests alone.
#![tactic(auto)]

#[cfg(test)]
mod flowing;
#[cfg(test)]
mod made;
#[cfg(test)]
mod pointing;
#[cfg(test)]
mod racing;
#[cfg(test)]
mod summing;
