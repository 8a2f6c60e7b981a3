//! A racy access has one grain.
ghost use Rattle.std.specs.Prelude.{◌≡◌, List};
ghost use Rattle.flow_code.specs.declared.code.Code.{Code};
ghost use Rattle.facts.specs.declared.pair.Pair.{Pair};
ghost use Rattle.profiles.specs.declared.profile.Profile.{Profile};
ghost use Rattle.weak_lock_facts.specs.declared.grain.Grained.{Grained};
ghost use Rattle.weak_lock_facts.specs.declared.range.Range.{Range};
ghost use Rattle.weak_lock_facts.specs.Grains.{AreGrains};

/// The pairs, ranges and profile of a code have one list of grains.
pub fn law_one_list_of_grains()
    ensures { (code : Code) (ps : List Pair) (rs : List Range) (profile : Profile) (xs ys : List Grained) → AreGrains code ps rs profile xs → AreGrains code ps rs profile ys → xs ≡ ys }
{}
