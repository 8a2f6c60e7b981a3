//! The text of a checkpoint: what it holds, how it is written, and what each of its lines must obey. A checkpoint holds the
//! state of a run after so many entries of its log.
//!
//! Its contract: `write_snapshot` is `snapshot_text`; `law_resumable`: a run can go on from what obeys.
//! It knows nothing of how a text is read, and no job writes one yet.
#![tactic(auto)]

mod draft;
mod laws;
mod snapshot;
mod write;

pub use draft::{Draft, DraftThread, Head, HeadPhase};
pub use laws::law_resumable;
pub use snapshot::Snapshot;
pub use write::write_snapshot;
