//! A checked C source: the first rule that it breaks, or its objects with their layouts, and its functions.
//!
//! Its contract: `check`: the program, which breaks no rule, with its sites and functions; or the first fault in its
//! text.
//! It knows nothing of how a tree is read, what its code is.
#![tactic(auto)]

mod checking;
mod function_info;
mod layouts;
mod sites;
mod source;
mod typed;

pub use checking::TypeFault;
pub use function_info::FunctionInfo;
pub use layouts::layout_of;
pub use sites::kinds_of_structs;
pub use source::check;
pub use typed::Typed;
