//! Which expressions of a C source are constant, the constants of the library, and the value of an operator by those of
//! its operands.
//!
//! Its contract: `is_constant`, `constant_named`, `operation_value`, `prefix_value`, `chosen_value`: what their
//! definitions give.
//! It knows nothing of names, places.
#![tactic(auto)]

mod constants;

pub use constants::{
    chosen_value, constant_named, is_constant, is_int, is_of_numbers, operation_value, prefix_value,
};
