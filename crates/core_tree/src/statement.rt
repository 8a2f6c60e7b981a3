use crate::value::Value;
use rr_base::{List, Position};

/// A statement (C99 6.8). A declaration in a block is the statements that give its objects their first values.
#[derive(Drop)]
pub enum Statement {
    Block(List<Statement>),
    Compute(Value),
    /// An `if` without `else`.
    If {
        test: Value,
        yes: Box<Statement>,
        at: Position,
    },
    IfElse {
        test: Value,
        yes: Box<Statement>,
        no: Box<Statement>,
        at: Position,
    },
    While {
        test: Value,
        body: Box<Statement>,
        at: Position,
    },
    Do {
        body: Box<Statement>,
        test: Value,
        at: Position,
    },
    For {
        start: Box<Statement>,
        test: Option<Value>,
        step: Option<Value>,
        body: Box<Statement>,
        at: Position,
    },
    Break {
        at: Position,
    },
    Continue {
        at: Position,
    },
    Return {
        value: Option<Value>,
        at: Position,
    },
}
