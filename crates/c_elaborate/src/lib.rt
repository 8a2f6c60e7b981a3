//! What a C source does, as a core tree: from a source whose types and names break no rule to the tree in which they
//! are settled.
//!
//! Its contract: `elaborate`: the core tree that its definition gives.
//! It knows nothing of instructions.
#![tactic(auto)]

mod functions;
mod pointers;
mod whole;

pub use whole::elaborate;
