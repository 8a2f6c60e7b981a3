//! Tests of `rr_base`: lists, pointer words, and the outside as values. They stand apart, so that what is below all crates
//! is not proved again for them.
#![tactic(auto)]

#[cfg(test)]
mod tests;
