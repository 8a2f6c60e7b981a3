use core_run::Walk;
use thread_interpreter::Access;

/// What is seen of a walk.
#[derive(Clone, Copy, Debug, PartialEq, Eq)]
pub enum Seen {
    /// The first access that was asked for, with the position of the entry in whose part it is.
    Hit { part: u32, access: Access },
    /// No access is one that was asked for, or the walk is wrong.
    Nowhere,
}

/// A walk, with what is seen of it.
#[derive(Debug, Drop)]
pub struct Watched {
    pub seen: Seen,
    pub walk: Walk,
}
