//! Carriers: each runs one thread of a code in turns, over words that all threads share.
//!
//! Its contract: `Carrier::play`: a turn is one step of the machine, or an operation that wasn't allowed, with its
//! cause; its run shows the thread that its seat knows.
//! It knows nothing of how jobs are given turns, what becomes of the log.
#![tactic(auto)]

mod acts;
mod carrier;
mod ends;
mod operations;
mod played;
mod revokes;
mod turn;

pub use acts::{load, mark, store};
pub use carrier::Carrier;
pub use operations::{close_slot, give_up, operate, stop};
pub use played::Played;
pub use revokes::LockStripe;
pub use turn::prepare;
