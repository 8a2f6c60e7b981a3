/// What an attempt at an operation has come to.
#[derive(Clone, Copy, Debug, PartialEq, Eq)]
pub enum Attempt {
    /// The operation was made, with its answer and the number of operations that its object had before.
    Done { answer: i64, number: u32 },
    /// The object's word was this one, and the operation isn't made.
    NotYet { seen: u64 },
}
