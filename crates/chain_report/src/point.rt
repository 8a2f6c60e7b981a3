use rr_base::List;

/// A point of a log: the event that the thread makes after so many others.
#[derive(Clone, Copy, Debug, PartialEq, Eq)]
pub struct Point {
    pub thread: u8,
    pub count: u32,
}

/// What is found of the order of two points.
#[derive(Debug, Drop)]
pub enum Found {
    /// The walk is wrong at this entry.
    Wrong {
        at: u32,
    },
    /// They aren't two conflicting accesses of the walk.
    NoConflict,
    /// The first one came before the second, by these passes from entry to entry.
    Chain {
        first: Point,
        second: Point,
        passes: List<(u32, u32)>,
    },
}
