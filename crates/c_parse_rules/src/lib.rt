//! What the reader of a C source goes by at each token: the next token as its rule takes it, the names of types, how
//! declarators begin, and trees made of smaller ones.
//!
//! Its contract: each function takes what its rule takes (`specs/Gives.antt`).
//! It knows nothing of which phrase is read.
#![tactic(auto)]

pub mod head;
pub mod make;
pub mod operator;
pub mod token;
pub mod types;
