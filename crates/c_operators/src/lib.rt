//! What the operators of a C source make of their operands, as core trees, and what is known where an expression
//! stands.
//!
//! Its contract: `binary`, `prefix`, `assigned` and the others, `Context`, `Constant`: what their definitions give.
//! It knows nothing of what an expression is.
#![tactic(auto)]

mod commas;
mod constant;
mod context;
mod denoted;
mod home;
pub mod make;
mod operators;

pub use commas::{joined, push_last};
pub use constant::Constant;
pub use context::{
    Context, Frame, Source, function_counted, function_word, pointer_counted, site_at,
};
pub use denoted::{Denoted, Part, WordKind, is_pointing};
pub use home::Home;
pub use operators::{arrow, assigned, binary, cast, conditional, index, member, prefix, stepped};
