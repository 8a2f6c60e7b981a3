//! The runs of weakened code that a job has: a recording with its log and what is told of it, the walk of a log, and a
//! recording that is replayed. It knows of no source: `jobs` gives it the code, and says what these runs are of a
//! source.
//!
//! Its contract: `recorded_on`, `recorded_code`, `told_walk`, `replayed_log`, `log_in`.
//! It knows nothing of sources, words.
#![tactic(auto)]

mod ending;
mod logs;
mod recording;
mod replaying;
mod retold;

pub use ending::or_stop;
pub use logs::log_in;
pub use recording::{Recording, recorded_code, recorded_on};
pub use replaying::told_walk;
pub use retold::replayed_log;
