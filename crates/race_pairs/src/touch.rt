use facts::AccessAt;
use rr_base::{List, Place};

/// An access of the summary of a root: where it stands in the code, the root, whether that is `main`, and which of the
/// summary's accesses it is.
#[derive(Clone, Copy, Debug, PartialEq, Eq)]
pub struct Reached {
    pub at: AccessAt,
    pub root: usize,
    pub is_main: bool,
    pub index: usize,
}

/// A place, and an access that may touch a cell of it.
#[derive(Clone, Copy, Debug, PartialEq, Eq)]
pub struct Touch {
    pub place: Place,
    pub access: Reached,
}

/// Accesses of one place that may race with the same accesses: their root, if no two threads begin with it, whether they
/// are stores, the cells of the locks that are held at each for writing, those of the locks that are held in any way, both
/// in order, and where they stand.
#[derive(Debug, Drop)]
pub struct Group {
    pub place: Place,
    pub alone: Option<usize>,
    pub store: bool,
    pub writing: List<u32>,
    pub reading: List<u32>,
    pub accesses: List<AccessAt>,
}
