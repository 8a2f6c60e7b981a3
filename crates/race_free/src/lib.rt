//! No state of weakened code is a race, and the setup has each cell that comes next. So each log of a run walks to that
//! run's end, whatever the interleaving was.
//!
//! Its contract: `law_no_race`; `law_converge` and `law_log`: the log of a run walks to its end; `law_prefixes`, and `law_first_part`: the
//! first part of a run meets its premises.
//! It knows nothing of sources, texts.
#![tactic(auto)]

mod laws;

pub use laws::{
    law_cells, law_converge, law_first_part, law_log, law_merges, law_no_race, law_prefixes,
};
