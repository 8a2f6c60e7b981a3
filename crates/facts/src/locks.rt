//! The locks that a function holds, as it knows them.
use rr_base::List;
use sync_objects::Mode;

/// A lock that a function knows by name: a global cell, or the cell so many cells after that to which a formal points.
#[derive(Clone, Copy, Debug, PartialEq, Eq)]
pub enum LockPath {
    Cell(u32),
    Formal { index: u32, offset: u32 },
}

/// A lock that is held: for writing, as a mutex always is, or for reading, as one that is held for writing is too.
#[derive(Clone, Copy, Debug, PartialEq, Eq)]
pub struct Held {
    pub path: LockPath,
    pub mode: Mode,
}

/// How a function names a lock: not at all, by a path that leads to no cell, or by a path.
#[derive(Clone, Copy, Debug, PartialEq, Eq)]
pub enum Naming {
    Unknown,
    Nowhere,
    Named(LockPath),
}

/// The locks that may have been given back since a function was entered.
#[derive(Debug, Drop)]
pub enum Minus {
    /// Any lock.
    All,
    /// None but these, which ascend.
    Listed(List<LockPath>),
}

/// The locks at a point of a function, relative to those that were held as it was entered: `plus` are held, and none
/// but those of `minus` may have been given back. `plus` ascends by path, then `Read` before `Write`.
#[derive(Debug, Drop)]
pub struct RelLocks {
    pub plus: List<Held>,
    pub minus: Minus,
}

/// An access with the locks at it, relative to the entry of the function whose summary has it.
#[derive(Debug, Drop)]
pub struct Guarded {
    pub function: u32,
    pub instr: u32,
    pub store: bool,
    pub plus: List<Held>,
    pub minus: Minus,
}

/// What a caller must know of a function: the locks at its exit, and the accesses that it and those it calls make.
#[derive(Debug, Drop)]
pub struct Summary {
    pub exit: RelLocks,
    pub guarded: List<Guarded>,
}
