use rr_base::Trap;
use sync_objects::{ObjId, Op};

/// What comes next in a thread by its code alone, before limits and owed stripes are looked at.
#[derive(Clone, Copy, Debug, PartialEq, Eq)]
pub enum Due {
    /// Nothing: the thread has ended.
    Nothing,
    /// A step that reads and writes the thread's own state alone.
    Quiet,
    Load { cell: u32 },
    Store { cell: u32, value: u64 },
    Mark,
    Operate { op: Op, obj: ObjId },
    /// The end of the program, for this reason.
    Trap(Trap),
}

/// What comes next in a thread.
#[derive(Clone, Copy, Debug, PartialEq, Eq)]
pub enum Action {
    /// A step that reads and writes the thread's own state alone.
    Quiet,
    Load { cell: u32 },
    Store { cell: u32, value: u64 },
    Operate { op: Op, obj: ObjId },
    Mark,
    /// Nothing: the thread has ended.
    Ended,
}

/// What an answer to an event of a library call leads to.
#[derive(Clone, Copy, Debug, PartialEq, Eq)]
pub enum Onward {
    /// The call goes on, and keeps this answer.
    Stays { kept: i64 },
    /// The call is over, with this value.
    Gives { value: u64 },
    /// The thread is over.
    Ends,
}
