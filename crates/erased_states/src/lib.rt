//! Each state that a code with weak locks reaches is, without them, a state that the plain code reaches. So what holds
//! in every state of plain code holds where two threads of weakened code come to their next accesses.
//!
//! Its contract: `law_plain_state`, `law_plain_access`.
//! It knows nothing of where regions are taken and given.
#![tactic(auto)]

mod laws;

pub use laws::{law_plain_access, law_plain_code_runs, law_plain_state};
