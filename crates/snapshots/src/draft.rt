// A checkpoint's text as it is read, line by line, before it is judged.
use rr_base::List;
use sync_objects::ObjId;
use thread_interpreter::{FramePart, RegionPart, StripePart};

/// How far a thread is, as its line says it. A trap is told by its number.
#[derive(Clone, Copy, Debug, PartialEq, Eq)]
pub enum HeadPhase {
    Fresh,
    Begun(u32),
    Running,
    Ended,
    Trapped { kind: u8, line: u64 },
}

/// The first line of a thread: its number, its counts, how many lines of frames, stripes and regions follow, and how far it is.
#[derive(Clone, Copy, Debug, PartialEq, Eq)]
pub struct Head {
    pub number: u32,
    pub count: u32,
    pub arena: u32,
    pub entries: u32,
    pub revokes: u32,
    pub printed: u32,
    pub frames: u64,
    pub stripes: u64,
    pub regions: u64,
    pub phase: HeadPhase,
}

/// The lines of a thread.
#[derive(Debug, Drop)]
pub struct DraftThread {
    pub head: Head,
    pub frames: List<FramePart>,
    pub stripes: List<StripePart>,
    pub regions: List<RegionPart>,
}

/// What a text of the form of a checkpoint says, of whatever machine.
#[derive(Debug, Drop)]
pub struct Draft {
    pub at: u32,
    pub cells: List<(u32, u64)>,
    pub objects: List<(ObjId, u32, u32)>,
    pub threads: List<DraftThread>,
}
