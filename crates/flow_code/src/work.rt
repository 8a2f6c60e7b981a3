use rr_base::PtrWord;
use word_semantics::BinaryOp;

/// What an instruction computes from registers. The numbers are registers but where said otherwise.
#[derive(Clone, Copy, Debug, PartialEq, Eq)]
pub enum Work {
    Constant(i64),
    /// The address of a global; its base counts from the first global cell.
    Address(PtrWord),
    Copy(u32),
    /// Unary `-` (C99 6.5.3.3).
    Minus(u32),
    /// `~`.
    Complement(u32),
    /// `!`.
    Not(u32),
    Binary {
        op: BinaryOp,
        left: u32,
        right: u32,
    },
    /// A pointer moved by a number of elements of so many cells, or by its negative (C99 6.5.6).
    Move {
        pointer: u32,
        by: u32,
        element: u32,
        back: bool,
    },
    /// A pointer moved by so many cells, to a member (C99 6.5.2.3).
    Member {
        pointer: u32,
        by: u32,
    },
    /// How many elements of so many cells lie between two pointers (C99 6.5.6).
    Between {
        left: u32,
        right: u32,
        element: u32,
    },
    /// A number cast to a pointer (C99 6.3.2.3).
    ToPointer(u32),
    /// A pointer cast to a number.
    ToNumber(u32),
}
