//! Tests of `word_semantics` and `flow_code`: operators, and which codes are valid. They stand apart, so that the crates
//! are not proved again for them.
#![tactic(auto)]

#[cfg(test)]
mod operator_tests;
#[cfg(test)]
mod valid_tests;
