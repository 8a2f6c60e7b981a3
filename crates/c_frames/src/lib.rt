//! The formals and locals of a function of a C source: which there are, where each is kept, and what the function's
//! core tree says of them.
//!
//! Its contract: `kept_in`, `frame_of`, `pass_formals`, `function_by`: what their definitions give.
//! It knows nothing of statements' core trees.
#![tactic(auto)]

mod frames;
mod local;

pub use frames::{Kept, frame_of, function_by, kept_in, pass_formals};
pub use local::{Local, push_parts_locals};
