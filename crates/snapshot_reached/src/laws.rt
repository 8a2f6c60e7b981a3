//! Laws of checkpoints of reached states, over the definitions alone: their functions do nothing.
ghost use Rattle.std.specs.Prelude.{◌≡◌, ◌<◌, ◌≤◌, ◌^◌, ℕ, true, false, None, Some, slice_get};
ghost use Rattle.sync_objects.specs.Setup.{SetupView, IsWithinLimits};
ghost use Rattle.flow_code.specs.declared.code.Code.{Code};
ghost use Rattle.flow_code.specs.Settle.{IsRunnable};
ghost use Rattle.flow_code.specs.Valid.{is_valid};
ghost use Rattle.core_run.specs.Histories.{IsReachable};
ghost use Rattle.core_run.specs.Machine.{Told};
ghost use Rattle.run_theory.specs.Steps.{State};
ghost use Rattle.rr_base.specs.declared.trap.Trap.{Trap};
ghost use Rattle.flow_code.specs.declared.thread.Phase.TheVariants as phase;
ghost use Rattle.thread_interpreter.specs.Parts.{is_loaded, part_of};
ghost use Rattle.lock_sound.specs.Weakened.{Analysed, IsAnalysed};
ghost use Rattle.snapshots.specs.Conditions.{AllFit, MeetsConditions, cells_judged, objects_judged, head_fits, frames_judged, stripes_judged, regions_judged};
ghost use Rattle.snapshots.specs.Text.{head_of};
ghost use Rattle.snapshots.specs.Snapshots.{snapshot_of};
ghost use Rattle.snapshot_reached.specs.Stored.{CanBeKept, IsStored};

/// Law: the lines of the cells of a state that a run reaches are as they must be.
pub fn law_cells_fit()
    ensures { (code : Code) (setup : SetupView) (at : ℕ) (state : State Told) →
        AllFit (cells_judged code setup None (snapshot_of code setup at state).cells) }
{}

/// Law: the lines of its objects are, where the code is valid.
pub fn law_objects_fit()
    ensures { (code : Code) (setup : SetupView) (at : ℕ) (state : State Told) →
        is_valid code ≡ true →
        IsRunnable code →
        IsWithinLimits setup →
        IsReachable code setup state →
        AllFit (objects_judged code setup None (snapshot_of code setup at state).objects) }
{}

/// Law: the first line of each of its threads is, where the thread doesn't stand between the load of its argument and its
/// function, and a trap's line has 32 bits.
pub fn law_heads_fit()
    ensures { (code : Code) (setup : SetupView) (state : State Told) (t : ℕ) (told : Told) →
        is_valid code ≡ true →
        IsWithinLimits setup →
        IsReachable code setup state →
        slice_get state.threads t ≡ Some told →
        is_loaded told.thread.phase ≡ false →
        ((kind : Trap) (line : ℕ) → told.thread.phase ≡ phase.Trapped kind line → line < 2 ^ 32) →
        head_fits code setup t (head_of t (part_of told.thread)) ≡ true }
{}

/// Law: the lines of a thread's frames are, where the code is valid.
pub fn law_frames_fit()
    ensures { (code : Code) (setup : SetupView) (state : State Told) (t : ℕ) (told : Told) →
        is_valid code ≡ true →
        IsWithinLimits setup →
        IsReachable code setup state →
        slice_get state.threads t ≡ Some told →
        AllFit (frames_judged code setup None (part_of told.thread).frames) }
{}

/// Law: the lines of a thread's stripes are.
pub fn law_stripes_fit()
    ensures { (code : Code) (setup : SetupView) (state : State Told) (t : ℕ) (told : Told) →
        IsRunnable code →
        IsWithinLimits setup →
        IsReachable code setup state →
        slice_get state.threads t ≡ Some told →
        AllFit (stripes_judged code setup (part_of told.thread).regions None (part_of told.thread).stripes) }
{}

/// Law: the lines of a thread's open regions are, where the code is weakened.
pub fn law_regions_fit()
    ensures { (a : Analysed) (setup : SetupView) (state : State Told) (t : ℕ) (told : Told) →
        IsAnalysed a →
        IsWithinLimits setup →
        IsReachable a.weak setup state →
        slice_get state.threads t ≡ Some told →
        AllFit (regions_judged a.weak (part_of told.thread).frames (part_of told.thread).stripes None (part_of told.thread).regions) }
{}

/// Law: each line of the checkpoint of a state that a run of weakened code reaches is as it must be, so that a run can go on from
/// it. It is a state that a checkpoint can keep, and numbers are as their types have them.
pub fn law_meets_conditions()
    ensures { (a : Analysed) (setup : SetupView) (entries at : ℕ) (state : State Told) →
        IsAnalysed a →
        IsWithinLimits setup →
        IsReachable a.weak setup state →
        CanBeKept state →
        IsStored (snapshot_of a.weak setup at state) →
        at ≤ entries →
        MeetsConditions a.weak setup entries (snapshot_of a.weak setup at state) }
{}
