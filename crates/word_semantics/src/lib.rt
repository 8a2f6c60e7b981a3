//! What a source and its code share of the abstract machine on which both run: whole numbers and pointers in words,
//! operators, calls of the library, and the events of a thread. Each function is its definition.
//!
//! Its contract: each function is its definition in `specs/`.
//! It knows nothing of sources, instructions.
#![tactic(auto)]

mod caller;
mod cells;
mod evaluate;
mod event;
mod library;
mod library_call;
mod onward;
mod operator;
mod operators;
mod pointers;
mod printing;
mod registers;

pub use caller::Caller;
pub use cells::size_of;
pub use evaluate::{binary, negate, number, truth, word};
pub use event::{Action, Due, Onward};
pub use library::{
    argument, argument_cell, count_in, is_misuse, is_serial, library_due, result_cell, slot_in,
};
pub use library_call::{LibraryCall, Piece};
pub use onward::library_onward;
pub use operator::BinaryOp;
pub use operators::{based, either_binary};
pub use pointers::{
    compared, elements_between, known, moved, moved_by, number_from, pointer_at, pointer_to,
    resolved, site_at,
};
pub use printing::{piece, piece_len};
pub use registers::register;
