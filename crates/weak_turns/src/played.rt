use shared_cells::Attempt;
use sync_objects::{ObjId, Op};

/// What a turn of a thread has come to.
#[derive(Clone, Copy, Debug, PartialEq, Eq)]
pub enum Played {
    /// The thread has made its own next load, store or mark.
    Went,
    /// An operation was attempted: the thread's own next one, or a revoke, a stop or a close of it.
    Tried { op: Op, obj: ObjId, came: Attempt },
}
