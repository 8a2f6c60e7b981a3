//! The weakened code of a valid code is valid.
//!
//! Its contract: `law_weakened_code_is_valid`.
//! It knows nothing of how regions are found.
#![tactic(auto)]

mod laws;

pub use laws::{law_no_pairs_no_locks, law_weakened_code_is_valid};
