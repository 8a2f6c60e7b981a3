//! Why one access of a recorded run came before another: a chain of operations, each of which passes its object to the
//! next.
//!
//! Its contract: `find`: the lowest chain between two conflicting accesses of a walk on weakened code, which always
//! have one; `is_chain`: exactly the chains of its definition (`specs/Chains.antt`), and each of them orders the two
//! accesses.
//! It knows nothing of files, texts of logs, words of commands.
#![tactic(auto)]

mod checker;
mod finder;
mod kept;
mod laws;
mod linking;
mod lowest;
mod past;
mod point;
mod replayed;
mod row;

pub use checker::is_chain;
pub use finder::find;
pub use laws::{law_chain_exists, law_conflict_has_chain};
pub use point::{Found, Point};
