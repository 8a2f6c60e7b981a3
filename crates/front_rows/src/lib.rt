//! Tests of `front`: sources with their first faults, and with their sites and functions. They stand apart, so that the
//! crate is not proved again for them.
#![tactic(auto)]

#[cfg(test)]
mod listing_tests;
#[cfg(test)]
mod tests;
