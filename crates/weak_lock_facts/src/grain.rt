//! How much of its code an access is guarded with.
use facts::AccessAt;
use rr_base::List;

/// The code during which the weak locks of an access are held.
#[derive(Clone, Copy, Debug, PartialEq, Eq)]
pub enum Grain {
    /// All of its function.
    Function,
    /// The counted loop with this Mark.
    Loop(u32),
    /// A part of its block, from this instruction on.
    Block(u32),
    /// The access alone.
    Instruction,
}

/// An access that may race, and its grain.
#[derive(Clone, Copy, Debug, PartialEq, Eq)]
pub struct Grained {
    pub access: AccessAt,
    pub grain: Grain,
}

/// Each access that may race once, with its grain, by function and then by instruction.
#[derive(Debug, Drop)]
pub struct Grains {
    pub rows: List<Grained>,
}
