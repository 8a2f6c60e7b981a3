use crate::ctype::Specifier;
use crate::declaration::{Declarator, Item};
use crate::name::Name;
use crate::param::Params;
use crate::statement::Part;
use rr_base::{List, Position};

/// What follows the parameters: a block, at its brace, or a semicolon.
#[derive(Drop)]
pub enum Body {
    Block { parts: List<Part>, at: Position },
    Prototype,
}

/// One or more members of one specifier, at their first token (C99 6.7.2.1).
#[derive(Drop)]
pub struct Member {
    pub specifier: Specifier,
    pub declarators: List<Declarator>,
    pub at: Position,
}

/// What a source consists of (C99 6.9).
#[derive(Drop)]
pub enum External {
    /// A struct with one member or more. Its place is that of the name.
    Struct {
        name: Name,
        members: List<Member>,
    },
    /// A function that is defined or declared, with maybe `static` before it. Its place is that of the name.
    Function {
        is_static: bool,
        specifier: Specifier,
        stars: usize,
        name: Name,
        params: Params,
        body: Body,
    },
    /// One object or more, with maybe `static` before them, at the first token.
    Objects {
        is_static: bool,
        specifier: Specifier,
        items: List<Item>,
        at: Position,
    },
}

/// A whole source.
#[derive(Drop)]
pub struct Program {
    pub externals: List<External>,
}
