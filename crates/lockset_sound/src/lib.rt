//! What the relative locks of the analysis mean in every run of the machine. It knows nothing of where pointers point.
//!
//! Its contract: `law_guarded`: at an access the thread holds the global locks of a row for it; `law_may_race`.
//! It knows nothing of how locksets are found, points-to.
#![tactic(auto)]

mod laws;

pub use laws::{law_guarded, law_locks_mean, law_may_race, law_named, law_one_holds, law_roots};
