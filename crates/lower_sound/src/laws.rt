//! The laws of the code.
ghost use Rattle.std.specs.Prelude.{◌≡◌, ℕ, ◌≤◌, true, []};
ghost use Rattle.sync_objects.specs.Setup.{SetupView};
ghost use Rattle.flow_code.specs.Threads.{Thread};
ghost use Rattle.flow_code.specs.Valid.{is_valid};
ghost use Rattle.core_tree.specs.Core.{Program};
ghost use Rattle.core_tree.specs.Meaning.{run_of};
ghost use Rattle.flow_lower.specs.Lowered.{lowered};
ghost use Rattle.core_tree.specs.Within.{IsWithin};
ghost use Rattle.lower_sound.specs.Follows.{Follows, IsAtStart};
ghost use Rattle.core_tree.specs.Sound.{IsSound};

/// From its start on, each thread of the code of a core tree without pointers to functions makes the events of the tree's
/// thread whatever is answered: loads, stores, marks and operations in their order, each with the bytes that it prints, each
/// trap with its kind and line, and the end. Only where its list of entries is full does it trap before its next entry.
pub fn law_events()
    ensures { (p : Program) (s : SetupView) (t : ℕ) (m : Thread) → IsWithin p → p.pointers ≡ [] → 1 ≤ s.limit → IsAtStart p s t m → Follows (lowered p) s t (run_of p s t) m }
{}

/// The code of a sound core tree without pointers to functions is valid.
pub fn law_valid()
    ensures { (p : Program) → IsSound p → p.pointers ≡ [] → is_valid (lowered p) ≡ true }
{}

/// What a sound core tree names is there, so `law_events` holds of its code.
pub fn law_within()
    ensures { (p : Program) → IsSound p → IsWithin p }
{}
