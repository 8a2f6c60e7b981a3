//! On each way through a weakened function to an access that may race a region is open that guards it, and each return
//! gives all regions. So a thread has no weak lock at the end of its first function.
//!
//! Its contract: `law_accesses_are_guarded`: on each way to an access that may race a region is open that guards it;
//! `law_last_return_has_nothing`.
//! It knows nothing of what is answered to a thread.
#![tactic(auto)]

mod laws;

pub use laws::{
    law_accesses_are_guarded, law_last_return_has_nothing, law_regions_open_once,
    law_returns_give_all,
};
