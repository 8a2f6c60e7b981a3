use crate::object::ObjId;
use crate::operation::OpName;

/// One entry of a log: the thread, its number of events before the operation, the operation and its object.
#[derive(Clone, Copy, Debug, PartialEq, Eq)]
pub struct Entry {
    pub thread: u8,
    pub count: u32,
    pub op: OpName,
    pub obj: ObjId,
}

/// An entry with the number of its operation: how many operations its object had before.
#[derive(Clone, Copy, Debug, PartialEq, Eq)]
pub struct Noted {
    pub entry: Entry,
    pub number: u32,
}
