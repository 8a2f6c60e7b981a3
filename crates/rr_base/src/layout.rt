use crate::list::List;
use crate::position::Position;

/// What a cell of an object may hold.
#[derive(Clone, Copy, Debug, PartialEq, Eq)]
pub enum CellKind {
    /// A whole number of 64 bits.
    Whole,
    /// A pointer word.
    Pointer,
    /// A mutex.
    Mutex,
    /// A condition variable.
    Cond,
    /// A barrier.
    Barrier,
    /// A read-write lock.
    Rw,
}

/// How an object's cells lie: their number, the size of one element, and the kind of each cell.
#[derive(Debug, Drop)]
pub struct Layout {
    pub size: u32,
    pub element: u32,
    pub kinds: List<CellKind>,
}

/// A place of the source that makes objects: a variable or a `malloc`.
#[derive(Debug, Drop)]
pub struct Site {
    pub name: List<u8>,
    pub layout: Layout,
    /// Where its name or its `malloc` stands.
    pub at: Position,
}

/// A place of a source's memory as analyses see it: the site, and which cell of one element of the site's objects.
/// Elements of more than 64 cells have the class 0 alone.
#[derive(Clone, Copy, Debug, PartialEq, Eq, PartialOrd, Ord, Hash)]
pub struct Place {
    pub site: u16,
    pub class: u8,
}
