//! The laws of weakened code.
ghost use Rattle.std.specs.Prelude.{◌≡◌, true, List, []};
ghost use Rattle.flow_code.specs.declared.code.Code.{Code};
ghost use Rattle.flow_code.specs.Valid.{is_valid};
ghost use Rattle.facts.specs.declared.locks.Summary.{Summary};
ghost use Rattle.facts.specs.declared.pair.Pair.{Pair};
ghost use Rattle.profiles.specs.declared.profile.Profile.{Profile};
ghost use Rattle.facts.specs.PointsTo.{Tables};
ghost use Rattle.weak_lock_facts.specs.declared.grain.Grained.{Grained};
ghost use Rattle.weak_lock_facts.specs.declared.range.Range.{Range};
ghost use Rattle.weak_lock_facts.specs.Grains.{AreGrains};
ghost use Rattle.weak_code.specs.Weakened.{weakened};
ghost use Rattle.weak_code.specs.Stripped.{is_plain};
ghost use Rattle.weak_valid.specs.Answers.{AreAnswers};
ghost use Rattle.weak_valid.specs.Apart.{loops_are_apart};

/// The weakened code of a valid code is valid, where its loops are told apart by their Marks and it is made of the answers
/// of the code's analyses.
pub fn law_weakened_code_is_valid()
    ensures { (code : Code) (t : Tables) (ss : List Summary) (vs : List Pair) (rs : List Range) (profile : Profile) (rows : List Grained) → is_valid code ≡ true → is_plain code ≡ true → loops_are_apart code ≡ true → AreAnswers code t ss vs rs profile rows → is_valid (weakened code t vs rs rows) ≡ true }
{}

/// A valid code without race pairs is its own weakened code.
pub fn law_no_pairs_no_locks()
    ensures { (code : Code) (t : Tables) (rs : List Range) (profile : Profile) (rows : List Grained) → is_valid code ≡ true → is_plain code ≡ true → AreGrains code [] rs profile rows → weakened code t [] rs rows ≡ code }
{}
