/// How a thread holds a lock: a mutex or a stripe always for writing, a read-write lock one way or the other.
#[derive(Clone, Copy, Debug, PartialEq, Eq)]
pub enum Mode {
    /// Beside others that hold it for reading.
    Read,
    /// Alone.
    Write,
}
