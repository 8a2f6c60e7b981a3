//! The one interpreter of a thread, `Flow`; how a thread has ended, and what is asked of its accesses.
//!
//! Its contract: `Flow` makes the steps of `specs/Next.antt` of `flow_code`.
//! It knows nothing of words, entries, other threads.
#![tactic(auto)]

mod access;
mod alone;
mod due;
mod enter;
mod flow;
mod frame;
mod giving;
mod laws;
mod next;
mod outcome;
mod part;
mod place;
mod region;
mod resuming;
mod state;
mod step;
mod stripes;
mod taking;

pub use access::{Access, Formula};
pub use flow::Flow;
pub use flow_code::Phase;
pub use laws::{law_ended_parted, law_parted};
pub use outcome::Ending;
pub use part::{FramePart, PhasePart, RegionPart, StripePart, ThreadPart};
