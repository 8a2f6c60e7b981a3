//! What a run writes as its log is within the limits of a log: of each run of weakened code, in any interleaving, with
//! any revokes, stops and closes. It has no program, and promises its laws.
//!
//! Its contract: `law_log_is_within`, `law_log_is_short`.
//! It knows nothing of texts.
#![tactic(auto)]

mod laws;

pub use laws::{law_log_is_short, law_log_is_within, law_merge_is_within};
