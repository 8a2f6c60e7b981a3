//! Accesses whose elements are known where their loop is entered.

/// An access `base[counter + shift]` of a counted loop, by its function and its instruction there, and the Mark of the
/// loop.
#[derive(Clone, Copy, Debug, PartialEq, Eq)]
pub struct Range {
    pub function: u32,
    pub instr: u32,
    pub loop_at: u32,
    pub shift: i64,
}
