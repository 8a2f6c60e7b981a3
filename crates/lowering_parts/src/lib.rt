//! What the code of a core tree is made of: which registers are copied and which are pointers, how many instructions
//! there are, the counted loops, and pieces of code whose operands have registers.
//!
//! Its contract: `statement_size`, `push_statement_kinds`, `push_statement_loops`: how many instructions, which
//! registers are pointers, which loops are counted, as their definitions have them; each `push_..` of a piece adds that
//! piece.
//! It knows nothing of the order of a tree's parts in its code.
#![tactic(auto)]

mod copies;
mod counted_loops;
mod emit;
mod kinds;
mod library;
mod pieces;
mod sizes;

pub use copies::{loses, loses_to};
pub use counted_loops::push_statement_loops;
pub use emit::{Next, push, unary_work};
pub use kinds::push_statement_kinds;
pub use library::copy_of;
pub use pieces::{
    Operand, moved, places_of, push_alone, push_and, push_between, push_binary, push_cell_changed,
    push_chosen, push_computed, push_given, push_last, push_left, push_library, push_loaded,
    push_old, push_or, push_register_changed, push_set, push_stored, push_tested,
};
pub use sizes::{maybe_size, statement_size, test_size, value_size};
