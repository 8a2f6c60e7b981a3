//! A thread of weakened code that makes an access holds the stripes of its open regions.
//!
//! Its contract: `law_open_stripes`.
//! It knows nothing of analyses.
#![tactic(auto)]

mod laws;

pub use laws::law_open_stripes;
