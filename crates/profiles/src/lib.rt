//! Profiles: which functions may be at work at once, by their names. The pairs of a profile always ascend, the lesser
//! name first.
//!
//! Its contract: the pairs of a profile ascend, the lesser name first (`specs/Profile.antt`).
//! It knows nothing of code, JSON, how a profile is made.
#![tactic(auto)]

mod profile;

pub use profile::{FunctionPairs, Profile};
