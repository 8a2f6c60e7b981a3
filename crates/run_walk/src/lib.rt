//! What the walk of a run's log comes to, by what remains of its threads: the log is not walked for it.
//!
//! Its contract: `whole_walk`: the walk, made of what the threads have printed, what was kept of their accesses, and
//! how they have ended.
//! It knows nothing of how threads are run, and how their entries were put in order.
#![tactic(auto)]

mod printed;
mod remains;
mod whole;

pub use remains::{Remains, into_remains};
pub use whole::whole_walk;

#[cfg(test)]
mod tests;
