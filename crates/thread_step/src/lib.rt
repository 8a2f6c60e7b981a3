//! One thread's run with what a recording keeps of it: the interpreter of `thread_interpreter`, the list of the
//! thread's entries with their numbers, the pieces that it has printed, and the first of its accesses that meet a
//! formula.
//!
//! Its contract: `take_answer` leaves `after` of `specs/Steps.antt`, without memory once room was reserved;
//! `law_operation`: that is the machine's step.
//! It knows nothing of words, other threads.
#![tactic(auto)]

mod laws;
mod run;

pub use laws::law_operation;
pub use run::ThreadRun;
