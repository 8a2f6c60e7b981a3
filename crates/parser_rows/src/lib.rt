//! Sources with their tokens, and with the trees or the first faults that are told of them, read from their bytes.
#![tactic(auto)]

#[cfg(test)]
mod print_tests;
#[cfg(test)]
mod tests;
#[cfg(test)]
mod token_tests;
