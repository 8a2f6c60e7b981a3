//! Profiles as JSON texts, both ways: `{"pairs":[["f","g"],["f","main"]]}`. What is written of a profile's pairs is
//! read back as those pairs.
//!
//! Its contract: `read_profile` is Ok exactly on a JSON text that lists pairs of texts; what is written is read back.
//! It knows nothing of logs, files.
#![tactic(auto)]

mod fault;
mod gather;
mod law;
mod listing;
mod read;
mod write;

pub use fault::ProfileFault;
pub use gather::gathered;
pub use law::{law_one_answer, law_reads_back};
pub use read::read_profile;
pub use write::write_profile;

#[cfg(test)]
mod tests;
