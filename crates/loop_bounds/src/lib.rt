//! The counted loops of a code, and the accesses in them whose elements are known where the loop is entered.
//!
//! Its contract: `counted_loops` is `counted_loops_of`, `ranges` is `ranges_of`; `law_element`: what a range says of
//! each turn.
//! It knows nothing of how locks and pairs are found.
#![tactic(auto)]

mod accesses;
mod acts;
mod counted;
mod heads;
mod laws;
mod loops;
mod makers;
mod operands;
mod rounds;
mod shifts;
mod spans;
mod ways;

pub use accesses::ranges;
pub use laws::{law_counter, law_element, law_form, law_kept, law_step};
pub use loops::counted_loops;
pub use makers::{last_maker, made_at};
