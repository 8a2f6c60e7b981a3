//! The accesses of a walk, in the order in which it makes them: the first one that a watch asks for, and the one that a
//! thread makes at a count.
//!
//! Its contract: `first_in_walk`: the walk, with the first of its accesses that the watch asks for and the entry in
//! whose part it is; `access_at`: the one access that a thread makes at a count.
//! It knows nothing of files, what is told of an access.
#![tactic(auto)]

mod alone;
mod at_count;
mod first;
mod laws;
mod seen;
mod starts;

pub use at_count::access_at;
pub use first::first_in_walk;
pub use laws::law_part;
pub use seen::{Seen, Watched};
