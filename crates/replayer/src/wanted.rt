use core_run::Noted;

/// An entry that a thread has to make, and its position in the log.
#[derive(Clone, Copy, Debug, PartialEq, Eq)]
pub struct Wanted {
    pub noted: Noted,
    pub position: u32,
}
