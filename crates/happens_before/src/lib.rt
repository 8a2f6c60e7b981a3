//! In every run of weakened code each two conflicting accesses of two threads are ordered by operations that pass
//! something on: a mutex or a read-write lock of the program, a stripe of a weak lock, a thread's start, or its end. So
//! are they in every log's walk, and they come in the same order in all runs with the same lists.
//!
//! Its contract: `law_ordered`, `law_ordered_walk`, `law_same_order`.
//! It knows nothing of sources, texts.
#![tactic(auto)]

mod laws;

pub use laws::{law_ordered, law_ordered_walk, law_same_order};
