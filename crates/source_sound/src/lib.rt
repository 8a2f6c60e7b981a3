//! The core tree of a source without a fault is sound. With `law_valid` and `law_within` of `lower_sound`, the code of
//! such a source is valid and makes the events of its core tree.
//!
//! Its contract: `law_sound`: the core tree of a source without a fault is sound.
//! It knows nothing of machines, logs, analyses.
#![tactic(auto)]

mod laws;

pub use laws::law_sound;
