//! The laws of resolved core trees.
ghost use Rattle.std.specs.Prelude.{◌≡◌, ℕ};
ghost use Rattle.sync_objects.specs.Setup.{SetupView};
ghost use Rattle.core_tree.specs.Core.{Program};
ghost use Rattle.core_tree.specs.Meaning.{main_of, run_of};
ghost use Rattle.core_tree.specs.Sound.{IsSound};
ghost use Rattle.call_targets.specs.Resolved.{resolved};

/// Whatever is answered, each thread of a resolved core tree makes the events of the tree with its pointers, each with the
/// bytes that it prints, and each trap with its kind and line.
pub fn law_resolved_runs()
    ensures { (p : Program) (s : SetupView) (t : ℕ) → run_of (resolved p) s t ≡ run_of p s t }
{}

/// It starts with the same function.
pub fn law_resolved_start()
    ensures { (p : Program) → main_of (resolved p) ≡ main_of p }
{}

/// What is named in it is there, and is used at its kind.
pub fn law_resolved_is_sound()
    ensures { (p : Program) → IsSound p → IsSound (resolved p) }
{}
