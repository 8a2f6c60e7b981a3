use crate::ctype::Specifier;
use crate::name::Name;
use rr_base::{List, Position};

/// A parameter of a function, at its first token (C99 6.7.5.3).
#[cycle(params)]
#[derive(Drop)]
pub enum Param {
    /// So many stars, and a name if any.
    Object {
        specifier: Specifier,
        stars: usize,
        name: Option<Name>,
        at: Position,
    },
    /// A pointer to a function: the stars of its result, the name, its parameters.
    Pointer {
        specifier: Specifier,
        stars: usize,
        name: Name,
        params: Params,
        at: Position,
    },
}

/// The parameters of a function: no token, the word `void` alone, or one or more.
#[cycle(params)]
#[derive(Drop)]
pub enum Params {
    Nothing,
    Void,
    Listed(List<Param>),
}
