//! What a points-to analysis asks of the sets of places.
use rr_base::Place;

/// What has a set of places to which it may point.
#[derive(Clone, Copy, Debug, PartialEq, Eq)]
pub enum Node {
    /// A register of a function.
    Register { function: u32, register: u32 },
    /// What a function gives to its callers.
    Result(u32),
    /// What threads give to those that join them.
    Ended,
    /// The cells of a place.
    Cells(Place),
}

/// A constraint on the sets of nodes.
#[derive(Clone, Copy, Debug, PartialEq, Eq)]
pub enum Constraint {
    /// The place is in the node's set.
    Given {
        node: Node,
        place: Place,
    },
    /// What is in the set of `from` is in that of `to`.
    Included {
        from: Node,
        to: Node,
    },
    /// The places so many elements of so many cells on, or back, are in the set of `to`.
    Shifted {
        from: Node,
        to: Node,
        by: i64,
        element: u32,
        back: bool,
    },
    /// The places to which some number of elements of so many cells leads are in the set of `to`.
    Strided {
        from: Node,
        to: Node,
        element: u32,
    },
    /// What is in the set of a place to which `through` may point is in that of `into`.
    Loaded {
        through: Node,
        into: Node,
    },
    /// What is in the set of `from` is in that of each place to which `through` may point.
    Stored {
        through: Node,
        from: Node,
    },
}
