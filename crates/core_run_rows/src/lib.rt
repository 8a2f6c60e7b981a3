//! Tests of `core_run` and `walk_accesses`: walks of logs on small codes. They stand apart, so that the crates are not proved again for them.
#![tactic(auto)]

#[cfg(test)]
mod access_tests;
#[cfg(test)]
mod instructions;
#[cfg(test)]
mod tests;
