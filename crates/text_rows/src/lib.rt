//! Rows of the texts that are read and written: listings and logs. It stands on `listing`, `order_log` and what is below
//! them, and has tests alone.
#![tactic(auto)]

#[cfg(test)]
mod listings;
#[cfg(test)]
mod logs;
