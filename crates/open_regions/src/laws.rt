//! The law of open regions, over the definitions alone.
ghost use Rattle.std.specs.Prelude.{◌≡◌, ℕ, true, false, List, Some, slice_get};
ghost use Rattle.sync_objects.specs.Setup.{SetupView, IsWithinLimits};
ghost use Rattle.flow_code.specs.declared.code.Code.{Code};
ghost use Rattle.flow_code.specs.declared.thread.Phase.TheVariants as phase;
ghost use Rattle.flow_code.specs.Next.{act_at};
ghost use Rattle.flow_code.specs.Settle.{next, settled};
ghost use Rattle.flow_code.specs.Valid.{is_valid};
ghost use Rattle.facts.specs.declared.pair.Pair.{Pair};
ghost use Rattle.profiles.specs.declared.profile.Profile.{Profile};
ghost use Rattle.facts.specs.PointsTo.{Tables};
ghost use Rattle.weak_lock_facts.specs.declared.grain.Grained.{Grained};
ghost use Rattle.weak_lock_facts.specs.declared.range.Range.{Range};
ghost use Rattle.weak_lock_facts.specs.Grains.{AreGrains};
ghost use Rattle.weak_lock_facts.specs.Ranges.{ranges_of};
ghost use Rattle.weak_code.specs.Stripped.{is_plain};
ghost use Rattle.weak_code.specs.Weakened.{weakened};
ghost use Rattle.weak_valid.specs.Apart.{loops_are_apart};
ghost use Rattle.guard_paths.specs.LoopsClosed.{loops_are_closed};
ghost use Rattle.core_run.specs.Histories.{IsReachable};
ghost use Rattle.core_run.specs.Machine.{Told};
ghost use Rattle.run_theory.specs.Steps.{State};
ghost use Rattle.lock_ownership.specs.ThreadStripes.{IsOfMemory};
ghost use Rattle.open_regions.specs.OpenStripes.{is_exit, HoldsItsOpen};

/// Where an access or a mark comes next in a thread, the thread holds all stripes that the open regions of its running frame
/// want; but not at pthread_exit, where it gives all its stripes before it stores its result.
pub fn law_open_stripes()
    ensures { (code : Code) (t : Tables) (vs : List Pair) (rs : List Range) (profile : Profile) (rows : List Grained) → is_valid code ≡ true → is_plain code ≡ true → loops_are_apart code ≡ true → loops_are_closed code ≡ true → rs ≡ ranges_of code t → AreGrains code vs rs profile rows → is_valid (weakened code t vs rs rows) ≡ true → (setup : SetupView) (state : State Told) (k : ℕ) (told : Told) → IsWithinLimits setup → IsReachable (weakened code t vs rs rows) setup state → slice_get state.threads k ≡ Some told → told.thread.phase ≡ phase.Running → IsOfMemory (next (weakened code t vs rs rows) setup k told.thread) → is_exit (act_at (weakened code t vs rs rows) (settled (weakened code t vs rs rows) setup k told.thread).top) ≡ false → HoldsItsOpen (weakened code t vs rs rows) setup k state (settled (weakened code t vs rs rows) setup k told.thread) }
{}
