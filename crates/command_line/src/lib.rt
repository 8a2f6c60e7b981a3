//! What the program is asked, what it answers, and where its files and bytes come from and go to.
//!
//! Its contract: `job_of` and `text_of` are their definitions; each fault of the system is counted.
//! It knows nothing of how an answer is found.
#![tactic(auto)]

mod adapters;
mod answer;
mod arguments;
mod asking;
mod command;
mod event;
mod job;
mod number;
mod predicate;
mod reading;
mod replacing;
mod summary;
mod telling;

pub use adapters::{FileShelf, InSource, OutSink};
pub use answer::{Answer, Part, text_of};
pub use asking::job_of;
pub use event::Event;
pub use job::{Job, RecordJob};
pub use summary::summary_text;
pub use telling::{tell, tell_answer};
