use rr_base::{List, Position, PtrWord};
use word_semantics::{BinaryOp, LibraryCall};

/// An operator of C99 6.5.3.3 on a whole number. `Not` takes a pointer too.
#[derive(Clone, Copy, Debug, PartialEq, Eq)]
pub enum UnaryOp {
    /// `-`
    Minus,
    /// `~`
    Complement,
    /// `!`
    Not,
}

/// What becomes of the word that a place or a register holds (C99 6.5.2.4, 6.5.3.1, 6.5.16.2).
#[derive(Clone, Copy, Debug, PartialEq, Eq)]
pub enum Change {
    /// A whole number, by an operator and an operand.
    Compute(BinaryOp),
    /// A pointer, by a number of elements of so many cells, or back by it.
    Move { element: u32, back: bool },
}

/// What gives a word without anything to compute or load.
#[derive(Clone, Copy, Debug, PartialEq, Eq)]
pub enum Simple {
    /// A constant.
    Number(i64),
    /// `NULL`, or `0` in its place.
    Null,
    /// A formal or local that is a register.
    Register { number: u32, pointer: bool },
    /// The address of a formal or local that is kept in cells.
    Object(u32),
    /// The address of a global; its base counts from the first global cell.
    Global(PtrWord),
}

/// An expression, which gives a word: a whole number of 64 bits or a pointer. Registers and objects are those of its
/// function. Each place is that of the token at which the event or trap of its own stands, and else that of the own token.
#[cycle(values)]
#[derive(Drop)]
pub enum Value {
    Simple { simple: Simple, at: Position },
    Operates(Operation),
    Chooses(Choice),
    Assigns(Assignment),
    Calls(Call),
}

/// An operator that takes all of its operands, from left to right.
#[cycle(values)]
#[derive(Drop)]
pub enum Operation {
    /// What the cell holds to which the operand points.
    Load {
        through: Box<Value>,
        pointer: bool,
        at: Position,
    },
    Unary {
        op: UnaryOp,
        operand: Box<Value>,
        at: Position,
    },
    /// An operator between two whole numbers, or a comparison of two pointers.
    Binary {
        op: BinaryOp,
        left: Box<Value>,
        right: Box<Value>,
        at: Position,
    },
    /// A pointer moved by a number of elements of so many cells, or back by it (C99 6.5.6).
    Move {
        pointer: Box<Value>,
        by: Box<Value>,
        element: u32,
        back: bool,
        at: Position,
    },
    /// The same where the number stands before the pointer.
    Advance {
        by: Box<Value>,
        pointer: Box<Value>,
        element: u32,
        at: Position,
    },
    /// A pointer moved by so many cells, to a member (C99 6.5.2.3).
    Member {
        pointer: Box<Value>,
        by: u32,
        at: Position,
    },
    /// How many elements of so many cells lie between two pointers (C99 6.5.6).
    Between {
        left: Box<Value>,
        right: Box<Value>,
        element: u32,
        at: Position,
    },
    /// A number cast to a pointer (C99 6.3.2.3).
    ToPointer {
        operand: Box<Value>,
        at: Position,
    },
    /// A pointer cast to a number.
    ToNumber {
        operand: Box<Value>,
        at: Position,
    },
    /// The operand's word in a register of its own: unary `+`, or a cast that changes no kind (C99 6.5.3.3, 6.5.4).
    Copy {
        operand: Box<Value>,
        at: Position,
    },
}

/// An operator that takes its operands as they are needed.
#[cycle(values)]
#[derive(Drop)]
pub enum Choice {
    /// `&&` (C99 6.5.13).
    And {
        left: Box<Value>,
        right: Box<Value>,
        at: Position,
    },
    /// `||` (C99 6.5.14).
    Or {
        left: Box<Value>,
        right: Box<Value>,
        at: Position,
    },
    /// `?:` (C99 6.5.15).
    Conditional {
        test: Box<Value>,
        yes: Box<Value>,
        no: Box<Value>,
        at: Position,
    },
    /// `,` (C99 6.5.17).
    Comma {
        before: Box<Value>,
        value: Box<Value>,
        at: Position,
    },
}

/// A register or a cell gets a value (C99 6.5.16, 6.5.2.4, 6.5.3.1).
#[cycle(values)]
#[derive(Drop)]
pub enum Assignment {
    /// A register gets a value.
    Set {
        register: u32,
        value: Box<Value>,
        at: Position,
    },
    /// The cell gets a value to which the first operand points.
    Store {
        through: Box<Value>,
        value: Box<Value>,
        at: Position,
    },
    /// A register changes. The expression gives what it holds then, or what it held before.
    ChangeRegister {
        register: u32,
        change: Change,
        operand: Box<Value>,
        gives_old: bool,
        at: Position,
    },
    /// A cell changes. What it holds is loaded at a place of its own.
    ChangeCell {
        through: Box<Value>,
        loaded_at: Position,
        change: Change,
        operand: Box<Value>,
        gives_old: bool,
        at: Position,
    },
}

/// A call (C99 6.5.2.2).
#[cycle(values)]
#[derive(Drop)]
pub enum Call {
    /// Of a function of the source.
    Function {
        function: u32,
        arguments: List<Value>,
        gives_pointer: bool,
        at: Position,
    },
    Library {
        call: LibraryCall,
        arguments: List<Value>,
        at: Position,
    },
    /// `malloc`, by its site (C99 7.20.3.3).
    Allocate {
        site: u16,
        size: Box<Value>,
        at: Position,
    },
}
