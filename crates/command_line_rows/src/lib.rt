//! Tests of `command_line`: words with the job that they are, answers with their texts, and files and streams that fail. They
//! stand apart, so that the crate is not proved again for them.
#![tactic(auto)]

#[cfg(test)]
mod adapter_tests;
#[cfg(test)]
mod full_disk;
#[cfg(test)]
mod tests;
