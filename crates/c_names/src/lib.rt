//! The names of a C source: the table of those that are declared so far, the parameters that a function lists, the
//! types of functions and of pointers to them, and the name that a thread is started with.
//!
//! Its contract: `Table` is the scopes of its definition (`specs/Table.antt`); `put_text`, `listed`, `third_name`: what
//! their definitions give.
//! It knows nothing of which rules a source breaks.
#![tactic(auto)]

mod params;
mod pointers;
mod signatures;
mod started;
mod table;

pub use params::{declared_name, listed, param_name};
pub use signatures::{
    cannot_give, cannot_pass, is_struct_specifier, is_void_specifier, pointed_by, pointer_of,
    signature_of,
};
pub use started::third_name;
pub use table::{Declared, Members, Table, put_text};
