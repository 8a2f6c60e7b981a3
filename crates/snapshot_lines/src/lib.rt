//! The lines of a checkpoint, one by one: what each says, where it says anything.
//!
//! Its contract: `head_in` and its like: on each line exactly what it says, and where it says nothing, that.
//! It knows nothing of how lines follow on one another.
#![tactic(auto)]

mod fields;
mod head;
mod line;
mod value;

pub use head::head_in;
pub use line::{cell_in, frame_in, object_line_in, region_in, stripe_in};
