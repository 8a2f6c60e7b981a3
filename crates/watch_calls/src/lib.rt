//! Watches: a formula together with the caller's own test of it.
//!
//! Its contract: a `Watch` keeps that its test answers its formula; `first_hit` is the position of the first access
//! that meets it.
//! It knows nothing of sources, texts of logs.
#![tactic(auto)]

mod access_test;
mod hit;
#[cfg(test)]
mod tests;
mod watch;

pub use access_test::AccessTest;
pub use hit::first_hit;
pub use thread_interpreter::{Access, Formula};
pub use watch::{Watch, watch_of};
