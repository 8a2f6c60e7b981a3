//! The types of a C source in this project's profile: their cells, the functions of the library, what names mean, and
//! what each operator makes of its operands.
//!
//! Its contract: `layout_of_type`: size, element size and kinds of cells of a type.
//! It knows nothing of which rules a source breaks.
#![tactic(auto)]

mod cells;
mod fault;
mod format;
mod law;
mod library;
mod names;
mod numbers;
mod operand;
mod rules;
mod signatures;
mod standing;
mod type_ref;
mod types;
mod wants;

pub use cells::{
    MAX_CELLS, cells_of, cells_of_layered, cells_of_structs, element_of, layout_of_type,
    put_layered,
};
pub use fault::{FaultKind, Found, note};
pub use format::{Inside, conversions};
pub use law::law_size;
pub use library::{LibraryName, StarredType, Wanted, given_by, library_named, wanted_by};
pub use names::{Meaning, Names, PointerType, Signature};
pub use numbers::{binary_of, prefix_of};
pub use operand::{Operand, Standing};
pub use rules::{
    accepts, are_compatible, are_functions, are_whole, assigns, assigns_some, binary_standing,
    can_choose, moves, takes,
};
pub use signatures::{have_same_signature, is_same_starred};
pub use standing::{
    Target, assign_standing, assigned_target, base_of, can_be_used, can_index, cast_standing,
    cast_target, casts_to, conditional_standing, index_standing, is_complete, is_main, is_sized,
    malloc_standing, member_standing, named_standing, pointed_struct, points_to_functions,
    prefix_standing, sizeof_standing, sizeof_type_standing, stepped, struct_of, type_function,
    type_named, type_target,
};
pub use type_ref::{TypeRef, have_same_base, is_array};
pub use types::{BaseType, Layer, ObjectType};
pub use wants::Wants;
