//! Tests of `jobs`: words and files in memory with what is told of them, and with what stands there afterwards. They stand apart,
//! so that they are proved beside those of the program.
#![tactic(auto)]

#[cfg(test)]
mod chain_tests;
#[cfg(test)]
mod checkpoint_tests;
#[cfg(test)]
mod checks;
#[cfg(test)]
mod make_tests;
#[cfg(test)]
mod order_tests;
#[cfg(test)]
mod profile_tests;
#[cfg(test)]
mod race_tests;
#[cfg(test)]
mod range_tests;
#[cfg(test)]
mod record_tests;
#[cfg(test)]
mod region_tests;
#[cfg(test)]
mod tests;
#[cfg(test)]
mod tired_crew;
#[cfg(test)]
mod walked;
#[cfg(test)]
mod watch_tests;
#[cfg(test)]
mod weak_tests;
#[cfg(test)]
mod whole_tests;
