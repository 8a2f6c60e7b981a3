//! The words of all cells and objects, as threads share them, and a seat for each thread.
//!
//! Its contract: `load`, `store` and a done `attempt` are one step each of a run that the words and the seats show;
//! `close`: one run leads to all that is left; no call waits.
//! It knows nothing of how a thread comes to its next action.
#![tactic(auto)]

mod asked;
mod attempt;
mod cells;
mod closed;
mod dealing;
mod seat;
mod spots;
mod steps;
mod view;

pub use attempt::Attempt;
pub use cells::Cells;
pub use closed::Closed;
pub use seat::Seat;
