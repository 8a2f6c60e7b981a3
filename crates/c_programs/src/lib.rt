//! What declarations, statements and functions of a C source declare, and the first rule that each breaks.
//!
//! Its contract: each `note_..` notes the first fault of its piece.
//! It knows nothing of which objects are kept in cells.
#![tactic(auto)]

mod declarators;
mod functions;
mod initials;
mod law;
mod members;
mod objects;
mod params;
mod pointers;
mod statements;
mod structs;

pub use declarators::{declared_type, pointer_type, put_pointers};
pub use functions::{declare_function, note_function};
pub use initials::{part_at, value_target};
pub use law::law_library_names;
pub use objects::{copy_of, declare_object, note_objects, ref_of};
pub use params::{declare_param, param_type};
pub use structs::{cells_of_some, note_struct};
