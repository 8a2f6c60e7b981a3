//! Each run of the machine of a source's code is a run of the source. This crate joins `lower_sound`, whose
//! `law_events` tells what one thread of the code makes, and `core_run`, the machine of all threads. What a run of a
//! source is stands in `specs/SourceRuns.antt`.
//!
//! Its contract: `IsSourceRun` of `specs/SourceRuns.antt`; `law_source_run`: each run of the code of a sound core tree
//! is a run of the source; `law_walk_events`: so is each walk of it, which tells the bytes that this run prints.
//! It knows nothing of how a core tree is made of a source.
#![tactic(auto)]

mod laws;

pub use laws::{law_own_events, law_source_run, law_start, law_walk_events, law_walk_run};
