//! Where the threads of a state that a run reaches stand: one that runs stands at an instruction of its function, and one to
//! which no step comes has ended.
//!
//! Its contract: `law_stands_at_instruction`, `law_ended_at_last`.
//! It knows nothing of which cells and objects the instructions name.
#![tactic(auto)]

mod laws;

pub use laws::{law_ended_at_last, law_stands_at_instruction};
