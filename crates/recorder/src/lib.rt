//! Recording: a code's threads run side by side over words that they share, and what is left of them is a log by which
//! they run once more.
//!
//! Its contract: `record_threads`: the log is that of a run, and its walk comes to that run's end; the crew ran a job
//! for each slot, with at least as many turns as there are entries.
//! It knows nothing of sources, texts of logs, files.
#![tactic(auto)]

mod record;
mod threads;

pub use record::Recorded;
pub use threads::record_threads;
