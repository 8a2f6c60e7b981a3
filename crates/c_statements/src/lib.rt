//! What a statement of a C source does, as a core tree.
//!
//! Its contract: `push_parts`, `block`: what their definitions give.
//! It knows nothing of functions, where locals are kept.
#![tactic(auto)]

mod make;
mod statement;

pub use make::block;
pub use statement::push_parts;
