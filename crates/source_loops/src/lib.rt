//! The loops of a source's code are as weak locks need them.
//!
//! Its contract: `law_loops_are_apart`: their Marks ascend; `law_loops_are_closed`: they are left to their ends.
//! It knows nothing of how a core tree is made of a source.
#![tactic(auto)]

mod laws;

pub use laws::{law_loops_are_apart, law_loops_are_closed};
