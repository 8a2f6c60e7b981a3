//! Replays: a code's threads follow their entries of a log side by side, each by itself.
//!
//! Its contract: `replay`: the answer is the log's walk, its first wrong entry included, however the log was made.
//! It knows nothing of sources, texts of logs, files.
#![tactic(auto)]

mod follower;
mod making;
mod numbering;
mod replaying;
mod sight;
mod step;
mod tried;
mod trying;
mod wanted;

pub use follower::Follower;
pub use replaying::replay;
pub use wanted::Wanted;
