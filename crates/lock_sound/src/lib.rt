//! A code with what the analyses find of it and with its weak locks, as one value which keeps that it is so.
//!
//! Its contract: a `Weakened` keeps that they are its own.
//! It knows nothing of how they are found.
#![tactic(auto)]

mod laws;
mod profile;
mod weakened;

pub use laws::{law_weakened_constants_fit, law_weakened_is_valid, law_weakened_runs};
pub use profile::copied_profile;
pub use weakened::Weakened;
