//! The law of the stripes that regions of functions, blocks and single accesses take.
ghost use Rattle.std.specs.Prelude.{◌≡◌, ℕ, true, false, List, Some, slice_get};
ghost use Rattle.std.specs.List.{Contains};
ghost use Rattle.rr_base.specs.Words.{offset_of};
ghost use Rattle.word_semantics.specs.Pointers.{known};
ghost use Rattle.word_semantics.specs.Registers.{register};
ghost use Rattle.flow_code.specs.declared.code.Code.{Code};
ghost use Rattle.flow_code.specs.declared.code.Function.{Function};
ghost use Rattle.flow_code.specs.declared.region.Region.{Region};
ghost use Rattle.flow_code.specs.Stripes.{guards, points_to_cell, wants};
ghost use Rattle.flow_code.specs.Valid.{is_valid};
ghost use Rattle.facts.specs.declared.pair.Pair.{Pair};
ghost use Rattle.profiles.specs.declared.profile.Profile.{Profile};
ghost use Rattle.facts.specs.PointsTo.{Tables};
ghost use Rattle.weak_lock_facts.specs.declared.grain.Grained.{Grained};
ghost use Rattle.weak_lock_facts.specs.declared.range.Range.{Range};
ghost use Rattle.weak_lock_facts.specs.Grains.{AreGrains};
ghost use Rattle.weak_lock_facts.specs.Ranges.{ranges_of};
ghost use Rattle.loop_bounds.specs.Turns.{Setting};
ghost use Rattle.weak_code.specs.declared.stretch.RacyAccess.{RacyAccess};
ghost use Rattle.weak_code.specs.Stretches.{racy_accesses};
ghost use Rattle.weak_code.specs.WeakLocks.{places_in};
ghost use Rattle.weak_code.specs.Weakened.{weakened};
ghost use Rattle.weak_code.specs.Stripped.{is_plain};
ghost use Rattle.weak_valid.specs.Apart.{loops_are_apart};
ghost use Rattle.guard_paths.specs.LoopsClosed.{loops_are_closed};
ghost use Rattle.guard_paths.specs.Guards.{IsSeat, Guards};
ghost use Rattle.guard_paths.specs.Walked.{Opening, Walked};
ghost use Rattle.region_stripes.specs.Ranged.{is_ranged};

/// Where a frame comes to an access that may race, each open region that guards it, but one of a loop, takes with the
/// registers of its Take the stripe of the cell to which the access's pointer points.
pub fn law_whole_wants()
    ensures { (code : Code) (t : Tables) (vs : List Pair) (rs : List Range) (profile : Profile) (rows : List Grained) → is_valid code ≡ true → is_plain code ≡ true → loops_are_apart code ≡ true → loops_are_closed code ≡ true → rs ≡ ranges_of code t → AreGrains code vs rs profile rows → (f : ℕ) (fn weak : Function) (a : RacyAccess) (w : ℕ) (s : Setting) (registers : List ℕ) (opened : List Opening) → slice_get code.functions f ≡ Some fn → slice_get (weakened code t vs rs rows).functions f ≡ Some weak → Contains (racy_accesses code t (places_in vs) rs rows f) a → IsSeat weak.instrs w a.instr → Walked s weak.instrs w registers opened → (lock stripe v : ℕ) → Contains a.locks lock → v ≡ known code.sites (register registers a.through) → points_to_cell v ≡ true → guards (weakened code t vs rs rows) v (offset_of v) lock stripe ≡ true → (x : Opening) (r : Region) → Contains opened x → slice_get weak.regions x.0 ≡ Some r → Guards fn a r → is_ranged r ≡ false → wants (weakened code t vs rs rows) x.1 r lock stripe ≡ true }
{}
