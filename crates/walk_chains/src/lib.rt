//! What orders two accesses of a log's walk, as it is told.
//!
//! Its contract: `told_chain`; `law_one_chain`: a log has one answer for two points on a code that can run.
//! It knows nothing of sources, words.
#![tactic(auto)]

mod law;
mod told;

pub use law::law_one_chain;
pub use told::told_chain;
