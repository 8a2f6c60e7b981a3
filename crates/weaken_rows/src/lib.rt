//! Tests of `loop_bounds` and `weaken`: the loops of small codes with the ranges of their accesses, and small codes with their
//! weakened codes. They stand apart, so that the crates are not proved again for them.
#![tactic(auto)]

#[cfg(test)]
mod loop_tests;
#[cfg(test)]
mod tests;
