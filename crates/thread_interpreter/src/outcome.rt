/// How a thread has ended.
#[derive(Clone, Copy, Debug, PartialEq, Eq)]
pub enum Ending {
    /// Its function has ended.
    Ended,
    /// `main` has returned in it.
    Halted,
    /// It has trapped.
    Trapped,
    /// It was stopped, since the program had ended.
    Stopped,
    /// Its slot was closed before it began.
    Closed,
}
