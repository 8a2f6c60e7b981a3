use rr_base::{Place, Position};

/// An access as the source shows it. They are ordered as they stand there, loads before stores at one position.
#[derive(Clone, Copy, Debug, PartialEq, Eq, PartialOrd, Ord)]
pub struct Shown {
    pub at: Position,
    pub store: bool,
}

/// A line of the listing: a place and two accesses. They are ordered by place, then by the first access, then by the
/// second.
#[derive(Clone, Copy, Debug, PartialEq, Eq, PartialOrd, Ord)]
pub struct Line {
    pub place: Place,
    pub first: Shown,
    pub second: Shown,
}
