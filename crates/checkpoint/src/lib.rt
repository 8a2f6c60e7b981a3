//! Walks that stop at a position of a log and go on from it: the snapshot of the state after so many entries, and the walk of
//! the rest from a snapshot.
//!
//! Its contract: `state_after`, `resume`; `law_rest`: what goes on from the snapshot of its own state comes to what the
//! whole walk comes to.
//! It knows nothing of texts.
#![tactic(auto)]

mod going;
mod grouped;
mod laws;
mod outcome;
mod resuming;
mod taking;

pub use laws::{law_alike, law_can_resume, law_has_cells, law_rest};
pub use outcome::{Resumed, Taken};
pub use resuming::resume;
pub use taking::state_after;
