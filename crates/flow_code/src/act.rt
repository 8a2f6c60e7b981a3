use crate::work::Work;
use rr_base::{List, Position};
use word_semantics::LibraryCall;

/// An instruction, and where in the source it stands.
#[derive(Debug, Drop)]
pub struct Instr {
    pub at: Position,
    pub act: Act,
}

/// What an instruction does. `into`, `through`, `from`, `on`, `value` and arguments are registers, `to`,
/// `then_at` and `else_at` are instructions of the same function.
#[derive(Debug, Drop)]
pub enum Act {
    Compute {
        into: u32,
        work: Work,
    },
    /// The object of a cell formal or local, or with a size in cells that of a `malloc`.
    Alloc {
        into: u32,
        site: u16,
        size: Option<u32>,
    },
    LoadCell {
        into: u32,
        through: u32,
    },
    StoreCell {
        through: u32,
        from: u32,
    },
    /// A turn of a loop begins.
    Mark,
    Call {
        function: u32,
        arguments: List<u32>,
        into: Option<u32>,
    },
    Library {
        call: LibraryCall,
        arguments: List<u32>,
        into: Option<u32>,
    },
    Jump {
        to: u32,
    },
    Branch {
        on: u32,
        then_at: u32,
        else_at: u32,
    },
    Return {
        value: Option<u32>,
    },
    /// Takes the stripes of a region of the function.
    Take(u32),
    /// Gives them back.
    Give(u32),
}
