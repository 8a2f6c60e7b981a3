//! The reader of the declarations and parameters of a C source (C99 6.7).
//!
//! Its contract: each reader reads its phrase as the rules do, from the level of nesting at which it stands.
//! It knows nothing of statements, functions' bodies.
#![tactic(auto)]

pub mod declaration;
pub mod param;
