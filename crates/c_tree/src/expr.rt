use crate::ctype::CType;
use crate::name::Name;
use rr_base::{Bytes, List, Position};

/// A prefix operator (C99 6.5.3).
#[derive(Clone, Copy, Debug, PartialEq, Eq)]
pub enum PrefixOp {
    /// `&`
    Address,
    /// `*`
    Indirect,
    /// `+`
    Plus,
    /// `-`
    Minus,
    /// `!`
    Not,
    /// `~`
    Complement,
    /// `++`
    Increment,
    /// `--`
    Decrement,
}

/// An operator between two operands (C99 6.5.5 to 6.5.14).
#[derive(Clone, Copy, Debug, PartialEq, Eq)]
pub enum BinaryOp {
    /// `||`
    LogicalOr,
    /// `&&`
    LogicalAnd,
    /// `|`
    Or,
    /// `^`
    Xor,
    /// `&`
    And,
    /// `==`
    Equal,
    /// `!=`
    NotEqual,
    /// `<`
    Less,
    /// `>`
    Greater,
    /// `<=`
    LessEqual,
    /// `>=`
    GreaterEqual,
    /// `<<`
    ShiftLeft,
    /// `>>`
    ShiftRight,
    /// `+`
    Add,
    /// `-`
    Subtract,
    /// `*`
    Multiply,
    /// `/`
    Divide,
    /// `%`
    Remainder,
}

/// An assignment operator (C99 6.5.16).
#[derive(Clone, Copy, Debug, PartialEq, Eq)]
pub enum AssignOp {
    /// `=`
    Assign,
    /// `+=`
    Add,
    /// `-=`
    Subtract,
    /// `*=`
    Multiply,
    /// `/=`
    Divide,
    /// `%=`
    Remainder,
    /// `&=`
    And,
    /// `|=`
    Or,
    /// `^=`
    Xor,
    /// `<<=`
    ShiftLeft,
    /// `>>=`
    ShiftRight,
}

/// An expression (C99 6.5). The place is that of the operator, the called name or the word where there is one, and else
/// that of the first token.
#[derive(Drop)]
pub enum Expr {
    /// Two expressions or more with commas between them.
    Comma {
        first: Box<Expr>,
        rest: List<Expr>,
        at: Position,
    },
    Assign {
        left: Box<Expr>,
        op: AssignOp,
        right: Box<Expr>,
        at: Position,
    },
    /// `test ? yes : no`, at the `?`.
    Conditional {
        test: Box<Expr>,
        yes: Box<Expr>,
        no: Box<Expr>,
        at: Position,
    },
    Binary {
        left: Box<Expr>,
        op: BinaryOp,
        right: Box<Expr>,
        at: Position,
    },
    Prefix {
        op: PrefixOp,
        operand: Box<Expr>,
        at: Position,
    },
    /// `sizeof operand`
    SizeofExpr {
        operand: Box<Expr>,
        at: Position,
    },
    /// `sizeof ( of )`
    SizeofType {
        of: CType,
        at: Position,
    },
    /// `( to ) operand`
    Cast {
        to: CType,
        operand: Box<Expr>,
        at: Position,
    },
    /// `base [ index ]`, at the `[`.
    Index {
        base: Box<Expr>,
        index: Box<Expr>,
        at: Position,
    },
    /// `base . name`, at the `.`.
    Member {
        base: Box<Expr>,
        name: Name,
        at: Position,
    },
    /// `base -> name`, at the `->`.
    Arrow {
        base: Box<Expr>,
        name: Name,
        at: Position,
    },
    /// `operand ++`, at the `++`.
    PostIncrement {
        operand: Box<Expr>,
        at: Position,
    },
    /// `operand --`, at the `--`.
    PostDecrement {
        operand: Box<Expr>,
        at: Position,
    },
    Name {
        name: Bytes,
        at: Position,
    },
    /// `name ( arguments )`, at the name.
    Call {
        name: Bytes,
        arguments: List<Expr>,
        at: Position,
    },
    Number {
        value: i64,
        at: Position,
    },
    Letter {
        value: u8,
        at: Position,
    },
    Text {
        bytes: Bytes,
        at: Position,
    },
    Null {
        at: Position,
    },
    /// `( inner )`
    Paren {
        inner: Box<Expr>,
        at: Position,
    },
}
