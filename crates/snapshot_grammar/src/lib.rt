//! The form of a checkpoint's text: what each line says, of whatever machine, or the first line that spoils it.
//!
//! Its contract: `read_draft`: the draft of which the bytes are the text, or the first line such that no checkpoint begins with
//! the lines up to it.
//! It knows nothing of codes and logs.
#![tactic(auto)]

mod draft;
mod fault;
mod items;
mod lined;
mod reader;

pub use draft::read_draft;
pub use fault::DraftFault;
