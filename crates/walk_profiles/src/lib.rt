//! The profile of a log: which functions were at work at once in the walk of its entries.
//!
//! Its contract: `shown_profile`; `law_one_profile`: a log has one on a code.
//! It knows nothing of sources.
#![tactic(auto)]

mod law;
mod shown;

pub use law::law_one_profile;
pub use shown::shown_profile;
