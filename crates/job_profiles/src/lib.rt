//! The profile that a job is given, and what a log can tell of it.
//!
//! Its contract: `profile_of`, `named`.
//! It knows nothing of sources.
#![tactic(auto)]

mod given;

pub use given::{named, profile_of};
