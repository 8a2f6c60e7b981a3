//! The globals of a C source: the pointer to each, the kinds of their cells, and the words as which they start.
//!
//! Its contract: `globals_in`, `global_kinds`, `global_bases`, `push_objects`: what their definitions give.
//! It knows nothing of statements, functions.
#![tactic(auto)]

mod globals;

pub use globals::{global_bases, global_kinds, globals_in, push_objects};
