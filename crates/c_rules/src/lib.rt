//! What each expression of a C source is at its place, the first rule that it breaks, and the values of constants.
//!
//! Its contract: `judge`: what an expression is, and its first fault.
//! It knows nothing of how names are kept.
#![tactic(auto)]

mod blame;
mod blame_call;
mod calls;
mod constants;
mod judging;
mod sizes;

pub use blame::{first_place, name_place, note_mismatch, note_specifier, own_place};
pub use blame_call::wants_of;
pub use calls::{
    call_standing, can_go, fits_wanted, following, format_of, given_by_call, let_go,
    pointed_signature,
};
pub use constants::value_of;
pub use judging::judge;
pub use sizes::{length_of, note_constant, note_length};
