use crate::declaration::Declaration;
use crate::expr::Expr;
use rr_base::{List, Position};

/// How a `for` begins: with a declaration, or with an expression or none.
#[derive(Drop)]
pub enum ForStart {
    Declares(Declaration),
    Computes(Option<Expr>),
}

/// A statement (C99 6.8), at its first token.
#[cycle(statements)]
#[derive(Drop)]
pub enum Stmt {
    Block {
        parts: List<Part>,
        at: Position,
    },
    Expression {
        value: Option<Expr>,
        at: Position,
    },
    Break {
        at: Position,
    },
    Continue {
        at: Position,
    },
    Return {
        value: Option<Expr>,
        at: Position,
    },
    If {
        test: Expr,
        yes: Box<Stmt>,
        no: Option<Box<Stmt>>,
        at: Position,
    },
    While {
        test: Expr,
        body: Box<Stmt>,
        at: Position,
    },
    Do {
        body: Box<Stmt>,
        test: Expr,
        at: Position,
    },
    For {
        start: ForStart,
        test: Option<Expr>,
        step: Option<Expr>,
        body: Box<Stmt>,
        at: Position,
    },
}

/// What stands in a block.
#[cycle(statements)]
#[derive(Drop)]
pub enum Part {
    Declares(Declaration),
    Does(Stmt),
}
