//! How a local of a C source begins that is declared with first values, and which cells an object of a type has.
//!
//! Its contract: `push_begun`, `kinds_of_some`: what their definitions give.
//! It knows nothing of globals, statements, functions.
#![tactic(auto)]

mod initials;

pub use initials::{kinds_of_some, push_begun};
