//! Each region takes the stripe of each cell that it guards: that of a function, of a block or of a single access, and
//! that of a counted loop, which takes, where the loop is entered, the stripes of the cells that its accesses touch in
//! any turn.
//!
//! Its contract: `law_whole_wants`; `law_range_in_runs`: where an access with a range points in every turn of its loop;
//! `law_loop_wants`.
//! It knows nothing of runs of a code, who holds a stripe.
#![tactic(auto)]

mod loops;
mod single;

pub use loops::{law_kept_in_runs, law_loop_wants, law_range_in_runs};
pub use single::law_whole_wants;
