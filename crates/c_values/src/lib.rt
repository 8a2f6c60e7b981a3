//! What an expression of a C source does, as a core tree.
//!
//! Its contract: `value`, `wanted`: the core tree that its definition gives; `law_commas`: expressions with commas
//! between them go one after another.
//! It knows nothing of statements, functions.
#![tactic(auto)]

mod calls;
mod expression;
mod laws;
mod leaves;
mod parts;

pub use calls::{gives_pointer, is_pointer_wanted};
pub use expression::{value, wanted};
pub use laws::law_commas;
pub use parts::kind_of_type;
