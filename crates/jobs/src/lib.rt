//! The jobs of the program: the listings of a source, a recorded run, a run by a log, the profile of a log, the first
//! access of a log's run that meets a formula, what orders two accesses of it, the state after its first entries, the rest
//! of it from such a state, and a made source, which is recorded and replayed.
//!
//! Its contract: `chimera`: what is put, what is written and the status are those of an outcome of the words' job; each
//! other end has its cause.
//! It knows nothing of how its parts are made.
#![tactic(auto)]

mod chaining;
mod checkpoints;
mod logs;
mod making;
mod profiling;
mod races;
mod recording;
mod replaying;
mod sources;
mod top;
mod watching;
mod weak_locks;

pub use top::chimera;
