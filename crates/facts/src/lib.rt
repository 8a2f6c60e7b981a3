//! The results of the analyses as types, each of which keeps what it is, and their definitions. It has blocks of
//! instructions, and the constants in them; points-to: its constraints and its answer; names of locks, relative
//! locksets and summaries of functions; and pairs of accesses that may race. The answer of each analysis is the only
//! one that its definition allows.
//!
//! Its contract: the definitions of `specs/`; `law_one_..`: each analysis has one answer.
//! It knows nothing of how an analysis finds it.
#![tactic(auto)]

mod access;
mod blocks;
mod constraint;
mod known;
mod laws;
mod locks;
mod moves;
mod names;
mod pair;
mod paths;
mod points;
mod relative;
mod sets;

pub use access::{places_of, through};
pub use blocks::{block_starts, constant_at};
pub use constraint::{Constraint, Node};
pub use laws::{law_one_list_of_pairs, law_one_points_to, law_one_summaries};
pub use locks::{Guarded, Held, LockPath, Minus, Naming, RelLocks, Summary};
pub use moves::amounts;
pub use names::argument_names;
pub use pair::{AccessAt, Pair};
pub use paths::substitute;
pub use points::PointsTo;
pub use sets::{SetItem, add_item, add_items, ascend, has_item, merged};
