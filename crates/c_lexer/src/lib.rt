//! The tokens of a C source (C99 6.4) in this project's profile.
//!
//! Its contract: `tokens` is exactly the tokens of the text, or the first fault at its place.
//! It knows nothing of grammar.
#![tactic(auto)]

mod cut;
mod directive;
mod fault;
mod law;
mod lex;
mod names;
mod number;
mod piece;
mod quoted;
mod scan;
mod spelling;
mod token;

pub use fault::LexFault;
pub use law::{law_longest_is_cut, law_places_are_true, law_spelled_are_found};
pub use lex::tokens;
pub use spelling::is_library_name;
pub use token::{Kind, Punct, Token, Word};
