use rr_base::{Bytes, List, Trap};
use thread_interpreter::{Access, Ending};

/// How the part of an entry has ended.
#[derive(Clone, Copy, Debug, PartialEq, Eq)]
pub enum PartEnd {
    /// Its thread has gone to the entry and made it.
    Made,
    /// It isn't allowed.
    Refused,
    /// It isn't allowed, since its thread comes to a load or store of a cell that the machine doesn't have.
    Outside,
}

/// What the walk of a list of entries comes to.
#[derive(Debug, Drop)]
pub enum Walk {
    /// All entries are allowed, and each thread has ended.
    Done {
        out: Bytes,
        reads: List<Access>,
        ends: List<Ending>,
    },
    /// The same, and a thread has trapped.
    Trapped {
        kind: Trap,
        thread: u8,
        line: u32,
        out: Bytes,
        reads: List<Access>,
        ends: List<Ending>,
    },
    /// The entry at this position is the first that isn't allowed; or this is the number of entries, all of them are
    /// allowed, and some thread has not ended.
    Wrong {
        at: u32,
    },
}
