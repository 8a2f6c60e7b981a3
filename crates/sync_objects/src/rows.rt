//! What operations do to the packed states of objects: a file for each kind, a function for each operation.
//! Nothing is answered where the operation isn't allowed.
#![tactic(auto, unfolding(crate::specs::Moved::moved))]

pub mod barrier;
pub mod condition;
pub mod halt;
pub mod input;
pub mod lock;
pub mod moved;
pub mod rwlock;
pub mod slot;
pub mod threads;
