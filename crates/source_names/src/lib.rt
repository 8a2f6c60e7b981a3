//! The theorem that the names of a source's functions are texts.
//!
//! Its contract: `law_names_are_texts`.
//! It knows nothing of profiles, runs.
#![tactic(auto)]

mod law;

pub use law::law_names_are_texts;
