use crate::ctype::Specifier;
use crate::expr::Expr;
use crate::name::Name;
use crate::param::Params;
use rr_base::{List, Position};

/// What is declared of one name, which is its place (C99 6.7.5).
#[derive(Drop)]
pub enum Declarator {
    /// So many stars, a name, and the length of each array.
    Object {
        stars: usize,
        name: Name,
        lengths: List<Expr>,
    },
    /// A pointer to a function, as `** (*name)(params)`: the stars of its result, the name, its parameters.
    Pointer {
        stars: usize,
        name: Name,
        params: Params,
    },
}

/// What a declared object starts as (C99 6.7.8).
#[derive(Drop)]
pub enum Initial {
    Value(Expr),
    /// One or more in braces, with or without a comma after the last.
    Braces {
        parts: List<Initial>,
        comma: bool,
        at: Position,
    },
    /// `PTHREAD_MUTEX_INITIALIZER`
    Mutex {
        at: Position,
    },
    /// `PTHREAD_COND_INITIALIZER`
    Cond {
        at: Position,
    },
    /// `PTHREAD_RWLOCK_INITIALIZER`
    RwLock {
        at: Position,
    },
}

/// One of the objects of a declaration.
#[derive(Drop)]
pub enum Item {
    Plain(Declarator),
    /// At the `=`.
    Initialised {
        declarator: Declarator,
        initial: Initial,
        at: Position,
    },
}

/// A declaration in a block (C99 6.7), with one item or more, at its first token.
#[derive(Drop)]
pub struct Declaration {
    pub specifier: Specifier,
    pub items: List<Item>,
    pub at: Position,
}
