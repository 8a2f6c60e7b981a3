//! The laws of what a run writes as its log.
ghost use Rattle.std.specs.Prelude.{◌≡◌, ◌<◌, ◌-◌, ◌^◌, List, length, Some};
ghost use Rattle.std.specs.List.{AllByRecursion};
ghost use Rattle.sync_objects.specs.Names.{Fits};
ghost use Rattle.sync_objects.specs.Setup.{SetupView, IsWithinLimits};
ghost use Rattle.sync_objects.specs.declared.entry.Entry.{Entry};
ghost use Rattle.sync_objects.specs.declared.entry.Noted.{Noted};
ghost use Rattle.flow_code.specs.declared.code.Code.{Code};
ghost use Rattle.flow_code.specs.Settle.{IsRunnable};
ghost use Rattle.core_run.specs.Histories.{run_of, list_of, lists_of, entries_in};
ghost use Rattle.core_run.specs.Machine.{Told};
ghost use Rattle.lock_sound.specs.Weakened.{Analysed, IsAnalysed};
ghost use Rattle.order_log.specs.Log.{AreWithin};
ghost use Rattle.run_theory.specs.Labels.{Label};
ghost use Rattle.run_theory.specs.Merge.{IsMerge, written_merge};
ghost use Rattle.run_theory.specs.Steps.{State};

/// Law: what is written as the log of a run of weakened code is within the limits of a log, and each operation fits its object.
/// Of code that may return with a region open this doesn't hold: between the end of its slot and its leaving, a thread at its
/// limit could lose a stripe, by an entry one event beyond the limit.
pub fn law_log_is_within()
    ensures { (a : Analysed) (setup : SetupView) (labels : List Label) (end : State Told) →
        IsAnalysed a →
        IsWithinLimits setup →
        run_of a.weak setup labels ≡ Some end →
        AreWithin setup (entries_in (written_merge (lists_of end))) × AllByRecursion (λ (e : Entry). Fits e.op e.obj) (entries_in (written_merge (lists_of end))) }
{}

/// Law: so is every merge of the lists of the run.
pub fn law_merge_is_within()
    ensures { (a : Analysed) (setup : SetupView) (labels : List Label) (end : State Told) (merged : List Noted) →
        IsAnalysed a →
        IsWithinLimits setup →
        run_of a.weak setup labels ≡ Some end →
        IsMerge (list_of end) merged →
        AreWithin setup (entries_in merged) × AllByRecursion (λ (e : Entry). Fits e.op e.obj) (entries_in merged) }
{}

/// Law: what is written as the log of a run is short enough to be walked, whatever code it is of.
pub fn law_log_is_short()
    ensures { (code : Code) (setup : SetupView) (labels : List Label) (end : State Told) →
        IsRunnable code →
        IsWithinLimits setup →
        run_of code setup labels ≡ Some end →
        length (entries_in (written_merge (lists_of end))) < 2 ^ 32 - 1 }
{}
