//! From the bytes of a C source to its code, or the first thing for which the source is refused.
//!
//! Its contract: `plain`: the code of a text, or the first fault with its place; `typed`: its tree.
//! It knows nothing of runs of a code, logs.
#![tactic(auto)]

mod analysed;
mod code;
mod laws;
mod reading;

pub use analysed::compile;
pub use code::plain;
pub use laws::{law_events, law_one_weakened, law_sound};
pub use reading::{CompileFault, SourceFault, law_one_reading, typed};
