//! The value of a constant expression is what its core tree gives when it runs. Numbers stand twice below: `c_types`
//! folds constants of a source over whole numbers, and `word_semantics` computes on words. This crate joins the two.
//!
//! Its contract: `law_constant`: the core tree of a constant expression gives its value when it runs, folded or not.
//! It knows nothing of whole sources, instructions.
#![tactic(auto)]

mod laws;

pub use laws::{law_constant, law_one_value, law_operator, law_prefix, law_refused};
