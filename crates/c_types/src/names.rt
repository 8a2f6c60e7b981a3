//! What a name means at its place in a source (C99 6.2.1, 6.2.3).
ghost use Rattle.std.specs.Prelude.{◌≡◌, nat_lt, length};
ghost use Rattle.std.specs.Option.{option_map};
ghost use Rattle.c_types.specs.Scopes as spec;
ghost use Rattle.c_types.specs.Signatures as signatures;
ghost use Rattle.c_types.specs.Shown.{shown_meaning, shown_member, shown_type};

use crate::library::{StarredType, Wanted};
use crate::type_ref::TypeRef;
use rr_base::{List, Position};

/// The types of a function. There is no type where the declaration has a fault.
#[derive(Debug, Drop)]
pub struct Signature {
    pub result: Option<StarredType>,
    pub params: List<Wanted>,
}

/// The type of the pointers to functions that a file declares, and the name of the first that has it.
#[derive(Debug, Drop)]
pub struct PointerType {
    pub signature: Signature,
    pub at: Position,
}

/// What an ordinary name is declared as.
#[derive(Clone, Copy)]
pub enum Meaning<'a> {
    /// A variable. It has no type where its declaration has a fault.
    Variable(Option<TypeRef<'a>>),
    Function(&'a Signature),
}

/// What is known of names at a place of a source.
pub trait Names {
    ghost use Rattle.c_types.specs.Scopes.{Known};

    ghost known: { Self → Known };

    /// The newest declaration of an ordinary name, in the innermost scope that has one.
    fn seen<'a>(&'a self, name: &[u8]) -> Option<Meaning<'a>>
        ensures { shown_meaning result ≡ spec.seen (known self.now) name.now };

    /// The number of the struct that the file defines anywhere.
    fn struct_numbered(&self, name: &[u8]) -> Option<usize>
        ensures { result ≡ spec.struct_numbered (known self.now) name.now };

    /// Whether the struct is defined before the place.
    fn is_struct_defined(&self, number: usize) -> bool
        ensures { result ≡ nat_lt number (length (known self.now).structs) };

    /// The member of a struct that is defined before the place. The inner value is None where its declaration has a
    /// fault.
    fn member_of<'a>(&'a self, number: usize, name: &[u8]) -> Option<Option<TypeRef<'a>>>
        ensures { shown_member result ≡ spec.member_of (known self.now) number name.now };

    /// The member at a position in its struct, counted from 0.
    fn member_at<'a>(&'a self, number: usize, index: usize) -> Option<Option<TypeRef<'a>>>
        ensures { shown_member result ≡ spec.member_at (known self.now) number index };

    /// How many cells an object of the type has; `MAX_CELLS + 1` where there are more.
    fn cells_of(&self, of: TypeRef) -> u32
        ensures { result ≡ spec.cells_of_type (known self.now) (shown_type of.entry) };

    /// The number of the pointers to functions of this type. There is none where the type has a fault in it.
    fn pointer_numbered(&self, of: &Signature) -> Option<usize>
        ensures { result ≡ signatures.pointer_numbered (known self.now) of.now };

    /// The number of a function's type: that of the pointers to it, if the file declares any.
    fn type_numbered(&self, of: &Signature) -> Option<usize>
        ensures { result ≡ signatures.type_numbered (known self.now) of.now };

    /// The type of the functions to which pointers with this number point.
    fn signature_numbered<'a>(&'a self, number: usize) -> Option<&'a Signature>
        ensures { option_map (λ f. f.now) result ≡ signatures.signature_numbered (known self.now) number };

    /// Whether the file defines the function anywhere.
    fn is_function_defined(&self, name: &[u8]) -> bool
        ensures { result ≡ spec.has_name (known self.now).defined name.now };
}
