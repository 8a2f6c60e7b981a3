//! The syntax tree of a C source in this project's profile.
//!
//! Its contract: each node stands at a `Position`; `specs/View.antt` is its plain tree.
//! It knows nothing of tokens.
#![tactic(auto)]

mod ctype;
mod declaration;
mod expr;
mod name;
mod param;
mod program;
mod statement;

pub use ctype::{CType, Specifier};
pub use declaration::{Declaration, Declarator, Initial, Item};
pub use expr::{AssignOp, BinaryOp, Expr, PrefixOp};
pub use name::Name;
pub use param::{Param, Params};
pub use program::{Body, External, Member, Program};
pub use statement::{ForStart, Part, Stmt};
