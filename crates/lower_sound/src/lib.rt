//! The laws of the code of a core tree. `law_events` says that the code makes the events of the tree, in each of its
//! threads and whatever is answered; `law_valid` says that the code of a sound tree is valid.
//!
//! Its contract: `law_events`: it makes the events of the tree and prints at each what it does, whatever is answered;
//! `law_valid`: it is valid where the tree is sound.
//! It knows nothing of how a core tree is made of a source.
#![tactic(auto)]

mod laws;

pub use laws::{law_events, law_valid, law_within};
