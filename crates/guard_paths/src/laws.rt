//! The laws of ways through weakened code.
ghost use Rattle.std.specs.Prelude.{◌≡◌, ℕ, true, List, [], Option, Some, slice_get};
ghost use Rattle.std.specs.List.{Contains};
ghost use Rattle.flow_code.specs.declared.act.Act.TheVariants as act;
ghost use Rattle.flow_code.specs.declared.act.Instr.{Instr};
ghost use Rattle.flow_code.specs.declared.code.Code.{Code};
ghost use Rattle.flow_code.specs.declared.code.Function.{Function};
ghost use Rattle.flow_code.specs.declared.thread.Phase.TheVariants as phase;
ghost use Rattle.flow_code.specs.Next.{act_at};
ghost use Rattle.flow_code.specs.Threads.{Thread};
ghost use Rattle.flow_code.specs.Valid.{is_valid};
ghost use Rattle.sync_objects.specs.Setup.{SetupView};
ghost use Rattle.facts.specs.declared.pair.Pair.{Pair};
ghost use Rattle.profiles.specs.declared.profile.Profile.{Profile};
ghost use Rattle.facts.specs.PointsTo.{Tables};
ghost use Rattle.weak_lock_facts.specs.declared.grain.Grained.{Grained};
ghost use Rattle.weak_lock_facts.specs.declared.range.Range.{Range};
ghost use Rattle.weak_lock_facts.specs.Grains.{AreGrains};
ghost use Rattle.weak_lock_facts.specs.Ranges.{ranges_of};
ghost use Rattle.weak_code.specs.declared.stretch.RacyAccess.{RacyAccess};
ghost use Rattle.weak_code.specs.Stretches.{racy_accesses};
ghost use Rattle.weak_code.specs.WeakLocks.{places_in};
ghost use Rattle.weak_code.specs.Weakened.{weakened};
ghost use Rattle.weak_code.specs.Stripped.{is_plain};
ghost use Rattle.weak_valid.specs.Apart.{loops_are_apart};
ghost use Rattle.guard_paths.specs.LoopsClosed.{loops_are_closed};
ghost use Rattle.guard_paths.specs.Guards.{IsSeat, IsGuarded};
ghost use Rattle.guard_paths.specs.Reached.{Reached};
ghost use Rattle.guard_paths.specs.Ways.{Way};

/// On each way through a weakened function to an access that may race a region is open that has the access's locks.
pub fn law_accesses_are_guarded()
    ensures { (code : Code) (t : Tables) (vs : List Pair) (rs : List Range) (profile : Profile) (rows : List Grained) → is_valid code ≡ true → is_plain code ≡ true → loops_are_apart code ≡ true → loops_are_closed code ≡ true → rs ≡ ranges_of code t → AreGrains code vs rs profile rows → (f : ℕ) (fn weak : Function) (a : RacyAccess) (w : ℕ) (opened : List ℕ) → slice_get code.functions f ≡ Some fn → slice_get (weakened code t vs rs rows).functions f ≡ Some weak → Contains (racy_accesses code t (places_in vs) rs rows f) a → IsSeat weak.instrs w a.instr → Way weak.instrs w opened → IsGuarded fn a weak opened }
{}

/// On each way to a Return of a weakened function all regions are given before it.
pub fn law_returns_give_all()
    ensures { (code : Code) (t : Tables) (vs : List Pair) (rs : List Range) (profile : Profile) (rows : List Grained) → is_valid code ≡ true → is_plain code ≡ true → loops_are_apart code ≡ true → loops_are_closed code ≡ true → rs ≡ ranges_of code t → AreGrains code vs rs profile rows → (f : ℕ) (weak : Function) (w : ℕ) (opened : List ℕ) (i : Instr) (value : Option ℕ) → slice_get (weakened code t vs rs rows).functions f ≡ Some weak → Way weak.instrs w opened → slice_get weak.instrs w ≡ Some i → i.act ≡ act.Return value → opened ≡ [] }
{}

/// No region of a weakened function is taken while it is open.
pub fn law_regions_open_once()
    ensures { (code : Code) (t : Tables) (vs : List Pair) (rs : List Range) (profile : Profile) (rows : List Grained) → is_valid code ≡ true → is_plain code ≡ true → loops_are_apart code ≡ true → loops_are_closed code ≡ true → rs ≡ ranges_of code t → AreGrains code vs rs profile rows → (f : ℕ) (weak : Function) (w : ℕ) (opened : List ℕ) (i : Instr) (r : ℕ) → slice_get (weakened code t vs rs rows).functions f ≡ Some weak → Way weak.instrs w opened → slice_get weak.instrs w ≡ Some i → i.act ≡ act.Take r → Contains opened r → ⊥ }
{}

/// A thread of a weakened code that stands at the return of its first function holds and owes no stripe, and has no region
/// open.
pub fn law_last_return_has_nothing()
    ensures { (code : Code) (t : Tables) (vs : List Pair) (rs : List Range) (profile : Profile) (rows : List Grained) → is_valid code ≡ true → is_plain code ≡ true → loops_are_apart code ≡ true → loops_are_closed code ≡ true → rs ≡ ranges_of code t → AreGrains code vs rs profile rows → (s : SetupView) (k : ℕ) (th : Thread) (value : Option ℕ) → Reached (weakened code t vs rs rows) s k th → th.phase ≡ phase.Running → th.below ≡ [] → act_at (weakened code t vs rs rows) th.top ≡ Some (act.Return value) → (th.stripes ≡ []) × (th.regions ≡ []) }
{}
