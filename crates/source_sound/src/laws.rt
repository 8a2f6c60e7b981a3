//! The law of sources.
ghost use Rattle.std.specs.Prelude.{◌≡◌, ◌+◌, ◌≤◌, ◌^◌, List, None, length};
ghost use Rattle.c_tree.specs.Tree.{Outer};
ghost use Rattle.c_sites.specs.Whole.{first_fault};
ghost use Rattle.c_elaborate.specs.Whole.{core_of_source};
ghost use Rattle.core_tree.specs.Sound.{IsSound};
ghost use Rattle.source_sound.specs.Members.{StructsHaveMembers};

/// What a source without a fault names is there, and is used at its kind, wherever the source stands in it. A source
/// that is read has a member in each struct, by the grammar. And a code has at most 2^20 functions, of which one calls
/// through each type of pointers to functions.
pub fn law_sound()
    ensures { (os : List Outer) → StructsHaveMembers os → first_fault os ≡ None → length (core_of_source os).functions + length (core_of_source os).pointers ≤ 2 ^ 20 → IsSound (core_of_source os) }
{}
