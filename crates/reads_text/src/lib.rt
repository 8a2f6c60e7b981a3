//! The text of the accesses that are kept of a run.
//!
//! Its contract: `reads_text` is `reads_text_of`; `push_value`.
//! It knows nothing of which are kept.
#![tactic(auto)]

#[cfg(test)]
mod tests;
mod text;

pub use text::{push_value, reads_text};
