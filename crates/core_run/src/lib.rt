//! Runs of flow code: the machine whose threads run a code over shared words, and the walk by a log.
//!
//! Its contract: the machine is lawful; `walk` is as `WalkIs` of `specs/Walks.antt` says.
//! It knows nothing of files, text of logs.
#![tactic(auto)]

mod finish;
mod laws;
mod making;
mod outcome;
mod parts;
mod reads;
mod same;
mod start;
mod walker;
mod walking;

pub use finish::{have_ended, shown};
pub use laws::{law_converge, law_kept, law_machine, law_merges, law_written_merge};
pub use outcome::{PartEnd, Walk};
pub use parts::{has_object, place_of};
pub use same::same_object;
pub use start::{start_flows, start_words};
pub use sync_objects::{Entry, Noted, Setup};
pub use thread_interpreter::{FramePart, PhasePart, RegionPart, StripePart, ThreadPart};
pub use walker::{make_part, walk_part};
pub use walking::walk;
pub use word_semantics::Action;
