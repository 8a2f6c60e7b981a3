//! What has cells of its own in a C source, in the order of the text: each global, each local or formal that is kept in
//! cells, each `malloc`.
//!
//! Its contract: `spots_in`: those of a source, in the order of the text, and what is declared at its end.
//! It knows nothing of the sites of a source and their layouts, which rules it breaks.
#![tactic(auto)]

mod allocations;
mod program_spots;
mod spot;
mod spots;

pub use program_spots::spots_in;
pub use spot::{Holder, Spot, object_of};
pub use spots::advance;
