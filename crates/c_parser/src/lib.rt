//! The reader of a C source: from its tokens to its syntax tree.
//!
//! Its contract: `parse`: the one tree of the grammar that has the tokens, or the first token that fits
//! none.
//! It knows nothing of types.
#![tactic(auto)]

mod compose;
mod external;
mod fault;
mod short;
mod source;
mod statement;

pub use fault::ParseFault;
pub use source::parse;
