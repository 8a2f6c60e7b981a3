//! A made source of any length, to record and replay: so many functions, which four threads each call one after another
//! on words that they share.
//!
//! Its contract: `program_of` is `program_text`.
//! It knows nothing of what the source does.
#![tactic(auto)]

mod program;
#[cfg(test)]
mod tests;

pub use program::program_of;
