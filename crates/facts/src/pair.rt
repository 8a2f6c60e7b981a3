//! Accesses that may race.
use rr_base::Place;

/// An access, by its function and its instruction there.
#[derive(Clone, Copy, Debug, PartialEq, Eq, PartialOrd, Ord)]
pub struct AccessAt {
    pub function: u32,
    pub instr: u32,
}

/// Two accesses of one place that may be at work at once, on two threads, one of them a store. The first isn't
/// after the second by function and instruction.
#[derive(Clone, Copy, Debug, PartialEq, Eq)]
pub struct Pair {
    pub place: Place,
    pub first: AccessAt,
    pub second: AccessAt,
}
