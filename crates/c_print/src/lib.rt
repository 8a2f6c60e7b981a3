//! What a syntax tree prints to: `print_tree` gives the kinds of the tokens that a tree stands for.
//!
//! Its contract: `print_tree` is the kinds of the tokens that a tree stands for.
//! It knows nothing of how a tree is read.
#![tactic(auto)]

mod print;

pub use print::print_tree;
