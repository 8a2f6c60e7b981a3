//! Jobs that are run in turns, and the crews that run them: one that gives turns by an order on one thread, and one
//! that has a thread for each job.
//!
//! Its contract: `Crew::run`: the same jobs come back, each led by turns to its end, and three counts tell what was
//! done.
//! It knows nothing of what a job does.
#![tactic(auto)]

mod crew;
mod given;
mod hand;
mod hands;
mod job;
mod play;
mod rest;
mod sched;
mod scope_crew;
mod table;
mod tally;
mod threads;

pub use crew::{Crew, CrewEnd};
pub use job::Job;
pub use sched::SchedCrew;
pub use scope_crew::ScopeCrew;

#[cfg(test)]
mod tests;
