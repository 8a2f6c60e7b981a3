//! The core tree of a C source: what the source does, with names and types settled. What one thread of a core tree does
//! is defined by recursion on it.
//!
//! Its contract: the definitions `run_of` of `specs/Meaning.antt`, and of sound trees in `specs/Sound.antt`.
//! It knows nothing of a source's types, instructions.
#![tactic(auto)]

mod program;
mod statement;
mod value;

pub use program::{Arrival, Core, CoreFunction, PointerType};
pub use statement::Statement;
pub use value::{Assignment, Call, Change, Choice, Operation, Simple, UnaryOp, Value};
