//! The synchronisation objects of a run, what each operation does to its object's word, and the entries of a log with
//! the setup of their run.
//!
//! Its contract: `advance` is the table of operations (`specs/Table.antt`).
//! It knows nothing of code, threads' states.
#![tactic(auto)]

mod entry;
mod kind;
mod laws;
mod mode;
mod object;
mod operation;
mod rows;
mod setup;
mod table;
mod word;

pub use entry::{Entry, Noted};
pub use kind::ObjKind;
pub use laws::{law_advanced, law_held, law_shown};
pub use mode::Mode;
pub use object::{ObjId, start_word};
pub use operation::{Op, OpName, fits};
pub use setup::Setup;
pub use table::advance;
pub use word::{number_of, state_of};
