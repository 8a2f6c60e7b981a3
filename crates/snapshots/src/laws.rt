// Laws of the conditions.
ghost use Rattle.std.specs.Prelude.{ℕ};
ghost use Rattle.sync_objects.specs.Setup.{SetupView, IsWithinLimits};
ghost use Rattle.flow_code.specs.declared.code.Code.{Code};
ghost use Rattle.flow_code.specs.Settle.{IsRunnable};
ghost use Rattle.snapshots.specs.Conditions.{MeetsConditions};
ghost use Rattle.snapshots.specs.Snapshots.{IsResumable};
ghost use Rattle.snapshots.specs.declared.snapshot.Snapshot.{Snapshot};

/// A run can go on from each snapshot of which each line is as it must be.
pub fn law_resumable()
    ensures { (code : Code) (s : SetupView) (n : ℕ) (x : Snapshot) → IsRunnable code → IsWithinLimits s → MeetsConditions code s n x → IsResumable code s n x }
{}
