//! The locals and formals of a C source, numbered in the order of the text: which names stand for which, and to which
//! of them `&` is applied. And which objects are kept in cells by their types, the functions that threads start with,
//! and those whose names stand as values.
//!
//! Its contract: `addressed_in`, `roots_of`, `taken_in`: those of a source; `is_kept_declared`, `is_kept_formal`: what
//! their definitions give.
//! It knows nothing of the sites of a source.
#![tactic(auto)]

mod addresses;
mod kept;
mod marks;
mod roots;
mod taken;

pub use addresses::addressed_in;
pub use kept::{is_kept_declared, is_kept_formal};
pub use marks::Marks;
pub use roots::{Roots, roots_of};
pub use taken::{Taken, taken_in};
