//! The grammar of C sources as a relation between trees and tokens (C99 6.5 to 6.9), and rules by which a reader goes
//! over the tokens.
//!
//! Its contract: `law_exact`: the rules find the one tree of the tokens, or the first token that fits
//! none.
//! It knows nothing of the reader.
#![tactic(auto)]

pub mod law;
