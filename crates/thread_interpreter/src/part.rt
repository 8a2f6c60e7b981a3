// A thread's state as plain numbers and lists: what a checkpoint keeps of it.
use rr_base::{List, Trap};

/// One frame: its function and instruction, how many events of this instruction are made, the last answer that it
/// keeps as a word, and its registers.
#[derive(Debug, Drop)]
pub struct FramePart {
    pub function: u32,
    pub instr: u32,
    pub made: u8,
    pub kept: u64,
    pub registers: List<u64>,
}

/// A stripe that the thread holds or owes, and in how many of its open regions it is.
#[derive(Clone, Copy, Debug, PartialEq, Eq)]
pub struct StripePart {
    pub lock: u16,
    pub stripe: u8,
    pub owed: bool,
    pub nesting: u32,
}

/// An open region: the number of its frame, the Take that opened it, and its stripes.
#[derive(Debug, Drop)]
pub struct RegionPart {
    pub frame: u32,
    pub instr: u32,
    pub stripes: List<(u16, u8)>,
}

/// How far the thread is in its life.
#[derive(Clone, Copy, Debug, PartialEq, Eq)]
pub enum PhasePart {
    /// Its slot hasn't been started, or it hasn't begun.
    Fresh,
    /// It has begun, to run this function.
    Begun(u32),
    /// It runs in its frames.
    Running,
    /// It has ended in any way but by a trap.
    Ended,
    /// It has trapped, at this line.
    Trapped { kind: Trap, line: u32 },
}

/// A thread's state: its numbers, its frames, the outermost first, the stripes that it holds or owes, its open regions,
/// the outermost first, and how far it is.
#[derive(Debug, Drop)]
pub struct ThreadPart {
    pub count: u32,
    pub arena: u32,
    pub entries: u32,
    pub revokes: u32,
    pub printed: u32,
    pub frames: List<FramePart>,
    pub stripes: List<StripePart>,
    pub regions: List<RegionPart>,
    pub phase: PhasePart,
}
