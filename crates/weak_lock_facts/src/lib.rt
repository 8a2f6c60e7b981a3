//! What weak locks rest on: counted loops and the elements that their accesses touch, and the grains at which accesses
//! are guarded. It has their definitions, and the types of what is found.
//!
//! Its contract: the definitions of `specs/`.
//! It knows nothing of how they are found.
#![tactic(auto)]

mod grain;
mod loop_at;
mod range;

pub use grain::{Grain, Grained, Grains};
pub use loop_at::LoopAt;
pub use range::Range;
