//! The outcomes that each job of the program may have on files and an input, and what follows of them: how far they are determined,
//! which cause each status has, what a call that ends with the status of a run has written, that a replay repeats its recording, and
//! that the rest of a walk from its checkpoint is the rest of the whole one.
//!
//! Its contract: `law_one_outcome`, `law_one_refusal`, `law_statuses_have_causes`, `law_replay_repeats`, `law_resume_repeats`.
//! It knows nothing of how jobs are done.
#![tactic(auto)]

mod laws;

pub use laws::{
    law_one_outcome, law_one_refusal, law_replay_repeats, law_resume_repeats,
    law_statuses_have_causes,
};
