use rr_base::List;

/// Where a span or an access begins: a global, or a register that holds the pointer.
#[derive(Clone, Copy, Debug, PartialEq, Eq)]
pub enum Base {
    Site(u16),
    Register(u32),
}

/// The bound of a counted loop: a number or a register.
#[derive(Clone, Copy, Debug, PartialEq, Eq)]
pub enum Bound {
    Number(i64),
    Register(u32),
}

/// The elements that one access of a counted loop touches: counter plus shift.
#[derive(Debug, Drop)]
pub struct Span {
    pub base: Base,
    pub shift: i64,
    pub locks: List<u16>,
}

/// What a `Take` takes and a `Give` gives back.
#[derive(Debug, Drop)]
pub enum Region {
    /// All stripes of the locks: the region of a function or a block.
    Whole {
        locks: List<u16>,
    },
    /// The stripes of the spans: the region of a loop.
    Ranged {
        counter: u32,
        bound: Bound,
        spans: List<Span>,
    },
    /// The stripe of one cell: the region of an instruction.
    Cell {
        base: Base,
        locks: List<u16>,
    },
}
