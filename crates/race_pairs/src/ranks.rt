// An order in which accesses that belong to one group stand side by side. Nothing but the time that grouping takes rests
// on it.
use crate::alike::{alone, guarded_at};
use crate::touch::Reached;
use facts::{Held, LockPath, Summary};
use rr_base::List;
use std::cmp::Ordering;
use sync_objects::Mode;

fn rank(path: LockPath) -> (bool, u32, u32) {
    match path {
        LockPath::Cell(cell) => (false, cell, 0),
        LockPath::Formal { index, offset } => (true, index, offset),
    }
}

fn by_lock(held: Held, other: Held) -> Ordering {
    rank(held.path).cmp(&rank(other.path)).then(
        (held.mode == Mode::Write).cmp(&(other.mode == Mode::Write)),
    )
}

fn by_locks(locks: &[Held], others: &[Held]) -> Ordering {
    for at in 0..locks.len().min(others.len()) {
        let order = by_lock(locks[at], others[at]);
        if order.is_ne() {
            return order;
        }
    }
    locks.len().cmp(&others.len())
}

/// By the root, if no two threads begin with it, by kind, by locks, and then by where they stand.
pub(crate) fn by_group(summaries: &[Summary], access: &Reached, other: &Reached) -> Ordering {
    match (guarded_at(summaries, access), guarded_at(summaries, other)) {
        (Some(x), Some(y)) => alone(access)
            .cmp(&alone(other))
            .then(x.store.cmp(&y.store))
            .then(by_locks(x.plus.as_slice(), y.plus.as_slice()))
            .then(access.at.cmp(&other.at)),
        _ => Ordering::Equal,
    }
}
