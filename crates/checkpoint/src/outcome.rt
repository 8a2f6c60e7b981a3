use core_run::Walk;
use snapshots::Snapshot;

/// What taking the state after so many entries of a log comes to.
#[derive(Debug, Drop)]
pub enum Taken {
    /// The entries have a walk, and this is kept of the state after it.
    State(Snapshot),
    /// The entry at this position is the first that isn't allowed; or this is the number of entries, which is smaller
    /// than what was asked for, and all of them have a walk.
    Wrong { at: u32 },
}

/// What a walk that goes on from a snapshot comes to.
#[derive(Debug, Drop)]
pub enum Resumed {
    /// What the walk of the rest comes to, with positions counted in the whole log.
    Walked(Walk),
    /// On the way to an entry this thread came to a load or store of a cell that the setup doesn't have.
    BadCell { thread: u8 },
}

/// Whether a walk came to the end of its entries.
#[derive(Clone, Copy, Debug, PartialEq, Eq)]
pub(crate) enum Went {
    /// All entries are allowed.
    On,
    /// The entry at this position is the first that isn't allowed.
    Refused { at: u32 },
    /// It isn't allowed, because this thread came to a cell that there isn't.
    Outside { at: u32, thread: u8 },
}
