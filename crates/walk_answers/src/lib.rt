//! What is told of a walk: its answer, and the file of the accesses that it kept.
//!
//! Its contract: `outcome_of`; `law_one_walk`.
//! It knows nothing of logs' texts.
#![tactic(auto)]

mod law;
mod told;

pub use law::law_one_walk;
pub use told::{answer_of, formula_of, outcome_of};
