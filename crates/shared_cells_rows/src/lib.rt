//! Tests of `shared_cells`. They stand apart, so that the crate is not proved again for them.
#![tactic(auto)]

#[cfg(test)]
mod tests;
