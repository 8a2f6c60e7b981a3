//! A core tree without pointers to functions: each call through one calls a function that chooses among the functions
//! whose names are taken as values.
//!
//! Its contract: `resolve` is the core tree that its definition gives; `law_resolved_runs`: it does the same whatever
//! is answered; `law_resolved_is_sound`: it is sound where the tree is.
//! It knows nothing of which names are taken as values.
#![tactic(auto)]

mod choosers;
mod laws;
mod program;

pub use laws::{law_resolved_is_sound, law_resolved_runs, law_resolved_start};
pub use program::resolve;
