//! What is known of a text that is read as a source without a fault, and of its weakened code.
ghost use Rattle.std.specs.Prelude.{◌≡◌, ◌≤◌, ◌^◌, ℕ, List, length};
ghost use Rattle.core_tree.specs.Meaning.{run_of};
ghost use Rattle.c_elaborate.specs.Whole.{core_of_source};
ghost use Rattle.rr_base.specs.Texts.{Text};
ghost use Rattle.c_tree.specs.Tree.{Outer};
ghost use Rattle.flow_code.specs.Threads.{Thread};
ghost use Rattle.lower_sound.specs.Follows.{Follows, IsAtStart};
ghost use Rattle.core_tree.specs.Sound.{IsSound};
ghost use Rattle.front.specs.Plain.{plain_code};
ghost use Rattle.front.specs.Readings.{sound, IsReading};
ghost use Rattle.lock_sound.specs.Weakened.{Analysed, IsAnalysed};
ghost use Rattle.sync_objects.specs.Setup.{SetupView};

/// The core tree of a source that is read is sound: what it names is there, and is used at its kind.
pub fn law_sound()
    ensures { (text : Text) (os : List Outer) → length text ≤ 2 ^ 20 → IsReading text (sound os) → IsSound (core_of_source os) }
{}

/// From its start on, each thread of the source's code makes the events of the source's thread, whatever is answered.
pub fn law_events()
    ensures { (text : Text) (os : List Outer) (s : SetupView) (t : ℕ) (m : Thread) → length text ≤ 2 ^ 20 → IsReading text (sound os) → 1 ≤ s.limit → IsAtStart (core_of_source os) s t m → Follows (plain_code os) s t (run_of (core_of_source os) s t) m }
{}

/// A code and a profile have one answer of the analyses, and one weakened code.
pub fn law_one_weakened()
    ensures { (a b : Analysed) → IsAnalysed a → IsAnalysed b → a.plain ≡ b.plain → a.profile ≡ b.profile → a ≡ b }
{}
