//! The code of a core tree.
//!
//! Its contract: `lower` is the code that its definition gives.
//! It knows nothing of how a core tree is made of a source.
#![tactic(auto)]

mod expression;
mod function;
mod statement;

pub use function::lower;
