use sync_objects::{ObjId, Op};

/// What an exchange is to make: an operation on an object, after so many marks of its thread, and the object's answer to it.
#[derive(Clone, Copy)]
pub struct Asked {
    pub op: Op,
    pub obj: ObjId,
    pub marks: u32,
    pub answer: i64,
}
