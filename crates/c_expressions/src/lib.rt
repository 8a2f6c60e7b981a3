//! The reader of the expressions of a C source (C99 6.5).
//!
//! Its contract: `expression`, `assignment`, `conditional`, `maybe_expression`: each reads its phrase as the rules do.
//! It knows nothing of statements, declarations.
#![tactic(auto)]

pub mod expression;
