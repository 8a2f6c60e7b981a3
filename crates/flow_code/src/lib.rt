//! Flow code: functions as lists of instructions with jumps, and what one thread of a code does. Its definitions say
//! what comes next in a thread, and the state after it; its functions give the parts of that for any code, valid or
//! not, exactly as the definitions have them. And it tells which codes are valid.
//!
//! Its contract: the definitions of `specs/Next.antt` and `specs/Settle.antt`; each evaluating function is its
//! definition.
//! It knows nothing of words shared with other threads.
#![tactic(auto)]

mod act;
mod addresses;
mod code;
mod constants;
mod entering;
mod kinds;
mod order;
mod region;
mod regions;
mod stripes;
mod thread;
mod valid;
mod work;
mod works;

pub use act::{Act, Instr};
pub use addresses::base_at;
pub use code::{Code, Function, LockInfo, LoopInfo};
pub use constants::constants_fit;
pub use entering::{fill, fitted_in, is_main, objects_len, place};
pub use region::{Base, Bound, Region, Span};
pub use stripes::{end_lock, first_lock, wants_number};
pub use thread::{Phase, Stripe};
pub use valid::is_valid;
pub use work::Work;
pub use works::{compute, is_pointer, set_register};
