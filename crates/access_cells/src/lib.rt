//! Which cells the next actions of threads name, in every run of the machine.
//!
//! Its contract: `law_access_cells`, `law_hand_offs_apart`, `law_conflict_cells`.
//! It knows nothing of locks.
#![tactic(auto)]

mod laws;

pub use laws::{law_access_cells, law_cells_are_there, law_conflict_cells, law_hand_offs_apart};
