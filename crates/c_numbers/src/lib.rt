//! The numbers of the locals and formals that are seen at a place of a C source.
//!
//! Its contract: `NumberTable` is the numbers of its definition (`specs/NumberTables.antt`).
//! It knows nothing of how a source declares names.
#![tactic(auto)]

mod number_table;

pub use number_table::NumberTable;
