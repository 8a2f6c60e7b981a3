//! Relative locksets: the locks at all points of a function, where the exits of those that it calls are given. They are
//! the greatest solution, found by rounds over the instructions.
//!
//! Its contract: `flow_function` is `IsGreatest`.
//! It knows nothing of how its callees' exits are found.
#![tactic(auto)]

mod calls;
mod effect;
mod flow;
mod flow_facts;
mod meeting;
mod next;

pub use calls::actuals;
pub use flow::flow_function;
pub use flow_facts::FlowFacts;
