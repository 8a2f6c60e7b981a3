// What a checkpoint holds.
use rr_base::List;
use sync_objects::ObjId;
use thread_interpreter::ThreadPart;

/// The state of a run after so many entries of its log: the cells whose word isn't 0, the objects whose word isn't the one
/// at the start, each with how many operations it had and with its state, and the thread of each slot.
#[derive(Debug, Drop)]
pub struct Snapshot {
    pub at: u32,
    pub cells: List<(u32, u64)>,
    pub objects: List<(ObjId, u32, u32)>,
    pub threads: List<ThreadPart>,
}
