//! What a job comes to, step by step, and how a call of the program ends.
//!
//! Its contract: `finish`, `put_all`, `file`, `input`.
//! It knows nothing of what a job asks for.
#![tactic(auto)]

mod finishing;
mod keeper;
mod outcome;
mod steps;
mod stop;
#[cfg(test)]
mod tests;

pub use finishing::{finish, put_all, tell_stop};
pub use keeper::Keeper;
pub use outcome::{Outcome, Put};
pub use steps::{file, input};
pub use stop::Stop;
