//! What a code with weak locks is: its locks, the regions of its functions, and where they are taken and given. It has
//! the definitions, and the types of regions. A law says that the weak instructions can be taken out again.
//!
//! Its contract: the definition `weakened` of `specs/Weakened.antt`; `law_weakened_code_strips`,
//! `law_weakened_code_runs`.
//! It knows nothing of how regions are found.
#![tactic(auto)]

mod laws;
mod stretch;

pub use laws::{law_weakened_code_runs, law_weakened_code_strips};
pub use stretch::{RacyAccess, Stretch};
