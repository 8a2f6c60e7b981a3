//! The text of a log, both ways. What is written of a log is read back as that log, nothing else is read, and each
//! refusal names the first line that spoils the text. A text has version 1 or 2: both are read, and say the same
//! entries, but that version 1 has no words for read-write locks.
//!
//! Its contract: `read_log` is Ok exactly on the texts of logs within the limits, one for each of the two versions.
//! It knows nothing of machines, sources, files.
#![tactic(auto)]

mod body;
mod entry;
mod fault;
mod group;
mod head;
mod hex;
mod laws;
mod log;
mod operation;
mod pairs;
mod part;
mod read;
mod reader;
mod version;
mod write;

pub use entry::object_in;
pub use fault::LogFault;
pub use laws::law_one_text;
pub use log::Log;
pub use part::{after_word, cut, is_name, number};
pub use read::read_log;
pub use write::{fits_version_1, push_object, write_log, write_log_1};
