//! Reading a checkpoint: the snapshot whose text the bytes are, where each line is as it must be for a code, a setup and the number
//! of entries of a log; else the first line that spoils them.
#![tactic(auto)]

mod calls;
mod cells;
mod fault;
mod frames;
mod judge;
mod laws;
mod machine;
mod making;
mod objects;
mod order;
mod places;
mod read;
mod regions;
mod states;
mod stripes;
mod threads;

pub use fault::SnapshotFault;
pub use laws::{law_one_answer, law_read_back};
pub use read::read_snapshot;
