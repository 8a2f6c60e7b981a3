/// The kind of a synchronisation object, which says what its word means and which operations fit it.
#[derive(Clone, Copy, Debug, PartialEq, Eq)]
pub enum ObjKind {
    Mutex,
    Cond,
    Barrier,
    /// A read-write lock.
    Rw,
    Weak,
    Slot,
    Threads,
    Halt,
    Input,
    Output,
}
