//! Checkpoints of a log's walk: the state after so many entries as a file, and what is told of the walk of the rest from such
//! a file.
//!
//! Its contract: `taken_checkpoint`, `told_rest`; `law_one_checkpoint` and `law_one_rest`: a log has one of each on a code;
//! `law_rest_repeats`: the rest from a checkpoint that was taken is that of the whole walk.
//! It knows nothing of sources, words.
#![tactic(auto)]

mod going;
mod law;
mod rest;
mod stored;
mod taking;

pub use going::told_rest;
pub use law::{law_one_checkpoint, law_one_rest};
pub use rest::law_rest_repeats;
pub use taking::taken_checkpoint;
