//! Regions of a function, and where they are open.
use flow_code::Region;
use rr_base::List;
use weak_lock_facts::Grain;

/// An access of a function that may race: its instruction, its grain, the register that points to its cell, how far
/// its element is from the counter of its loop where that is known, and the weak locks of the places that it may touch.
#[derive(Debug, Drop)]
pub struct RacyAccess {
    pub instr: u32,
    pub grain: Grain,
    pub through: u32,
    pub shift: Option<i64>,
    pub locks: List<u16>,
}

/// A region, which is open from before the first of its instructions to after the last.
#[derive(Debug, Drop)]
pub struct Stretch {
    pub first: usize,
    pub last: usize,
    pub region: Region,
}
