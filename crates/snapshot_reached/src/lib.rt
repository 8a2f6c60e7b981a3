//! What holds of each state that a run reaches: each line of its checkpoint is as it must be.
//!
//! Its contract: `law_meets_conditions`, `law_walk_meets_conditions` of weakened code; `law_frames_fit` of any valid
//! code.
//! It knows nothing of how a text is read.
#![tactic(auto)]

mod laws;
mod walked;

pub use laws::{
    law_cells_fit, law_frames_fit, law_heads_fit, law_meets_conditions, law_objects_fit,
    law_regions_fit, law_stripes_fit,
};
pub use walked::law_walk_meets_conditions;
