//! Weak locks change nothing of what a source does: each run of a code with weak locks is a run of the source, once the
//! operations on stripes are left out of it. This crate joins `weak_code`, which says what such a code is, and
//! `lowering_simulation`, which says what a run of a source is. It has no program, and promises its laws.
//!
//! Its contract: `law_erased_run`: each run of weakened code, without its operations on stripes, is a run of the
//! source; `law_erasure`: so is each run of any valid code that makes the source's events without its weak locks.
//! It knows nothing of how regions are found, and where they are taken and given.
#![tactic(auto)]

mod laws;

pub use laws::{
    law_erased_run, law_erased_walk, law_erasure, law_stripped_run, law_stripped_walk,
    law_thread_events,
};
