//! The first access of a log's walk that meets a formula, as it is told.
//!
//! Its contract: `told_hit`; `law_one_hit`: a log has one answer to a formula on a code.
//! It knows nothing of sources.
#![tactic(auto)]

mod law;
mod told;

pub use law::law_one_hit;
pub use told::{answer_of, told_hit};
