//! Laws of the definitions.
ghost use Rattle.std.specs.Prelude.{◌≡◌, List, length, map};
ghost use Rattle.rr_base.specs.declared.layout.CellKind.{CellKind};
ghost use Rattle.c_types.specs.declared.types.ObjectType.{ObjectType};
ghost use Rattle.c_types.specs.Types.{kinds_of_type, size_of_type};

/// The size of a type is the number of its cells.
pub fn law_size()
    ensures { (structs : List (List CellKind)) (t : ObjectType) → size_of_type (map length structs) t ≡ length (kinds_of_type structs t) }
{}
