//! Where the pointers of a code's registers and cells point, in every run of the machine.
//!
//! Its contract: `law_points_well`; `law_cells`: what is loaded or stored through a register is where points-to says.
//! It knows nothing of how points-to is found, locks.
#![tactic(auto)]

mod laws;

pub use laws::{law_cells, law_drawn_once, law_points_well};
