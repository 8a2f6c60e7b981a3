//! Listings for a reader of the source: of the pairs of accesses that may race, and of the weak locks with the accesses
//! that they guard.
//!
//! Its contract: `races_text` is `races_text_of`, `weak_text` is `weak_text_of`.
//! It knows nothing of how pairs are found.
#![tactic(auto)]

mod line;
mod lines;
mod text;
mod weak;

pub use text::races_text;
pub use weak::weak_text;
