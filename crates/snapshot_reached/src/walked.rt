//! The law of checkpoints of walks, over the definitions alone: its function does nothing.
ghost use Rattle.std.specs.Prelude.{ℕ, List, length};
ghost use Rattle.sync_objects.specs.Setup.{SetupView, IsWithinLimits};
ghost use Rattle.sync_objects.specs.declared.entry.Entry.{Entry};
ghost use Rattle.core_run.specs.Machine.{Told};
ghost use Rattle.run_theory.specs.Steps.{State};
ghost use Rattle.lock_sound.specs.Weakened.{Analysed, IsAnalysed};
ghost use Rattle.snapshots.specs.Conditions.{MeetsConditions};
ghost use Rattle.snapshots.specs.Snapshots.{snapshot_of};
ghost use Rattle.checkpoint.specs.Resuming.{IsStateAfter};
ghost use Rattle.snapshot_reached.specs.Stored.{IsStored};

/// Law: each line of the checkpoint of the state after the first entries of a log on weakened code is as it must be, for that
/// log, so that a run can go on from it. Numbers are as their types have them.
pub fn law_walk_meets_conditions()
    ensures { (a : Analysed) (setup : SetupView) (entries : List Entry) (at : ℕ) (state : State Told) →
        IsAnalysed a →
        IsWithinLimits setup →
        IsStateAfter a.weak setup entries at state →
        IsStored (snapshot_of a.weak setup at state) →
        MeetsConditions a.weak setup (length entries) (snapshot_of a.weak setup at state) }
{}
