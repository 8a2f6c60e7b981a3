//! The laws of runs of a source.
ghost use Rattle.std.specs.Prelude.{◌≡◌, ℕ, List, Some, slice_get};
ghost use Rattle.sync_objects.specs.Setup.{SetupView, IsWithinLimits};
ghost use Rattle.sync_objects.specs.declared.entry.Entry.{Entry};
ghost use Rattle.flow_code.specs.declared.code.Code.{Code};
ghost use Rattle.core_tree.specs.Core.{Program};
ghost use Rattle.core_tree.specs.Meaning.{run_of as thread_run};
ghost use Rattle.call_targets.specs.Resolved.{resolved};
ghost use Rattle.flow_lower.specs.Lowered.{lowered};
ghost use Rattle.lower_sound.specs.Follows.{IsAtStart};
ghost use Rattle.core_tree.specs.Sound.{IsSound};
ghost use Rattle.core_run.specs.Histories.{run_of};
ghost use Rattle.core_run.specs.Machine.{Told, start_state};
ghost use Rattle.core_run.specs.Walks.{walk_of, out_of};
ghost use Rattle.run_theory.specs.Labels.{Label};
ghost use Rattle.run_theory.specs.Steps.{State};
ghost use Rattle.lowering_simulation.specs.RunEvents.{events_of_run};
ghost use Rattle.lowering_simulation.specs.SourceRuns.{ThreadTransition, IsSourceRun, IsBeforeEntry, bytes_of};
ghost use Rattle.lowering_simulation.specs.ThreadEvents.{own_events, IsPartOf};
ghost use Rattle.lowering_simulation.specs.WalkEvents.{labels_of_walk, events_of_walk};

/// At the start of its machine each thread of a core tree's code is where the tree's thread begins.
pub fn law_start()
    ensures { (p : Program) (setup : SetupView) (t : ℕ) (told : Told) →
        slice_get (start_state (lowered (resolved p)) setup).threads t ≡ Some told →
        IsAtStart p setup t told.thread }
{}

/// Each run of the code of a sound core tree, in any interleaving and with any stops and closes, is a run of the
/// source: its events are those of the source's threads, with the bytes that these print, each load answers what was
/// stored last, and each operation is one that its object allows. No thread makes an operation on a stripe of a weak
/// lock. Only before an operation that is listed in the log can a thread's list be full, and then it traps.
pub fn law_source_run()
    ensures { (p : Program) (setup : SetupView) (labels : List Label) (end : State Told) →
        IsSound p →
        IsWithinLimits setup →
        run_of (lowered (resolved p)) setup labels ≡ Some end →
        IsSourceRun p setup IsBeforeEntry (events_of_run (lowered (resolved p)) setup labels) }
{}

/// In a run of the source each thread's own events are the first ones of its run, on the answers that they got; after
/// them it may have trapped since its list in the log was full.
pub fn law_own_events()
    ensures { (p : Program) (setup : SetupView) (transitions : List ThreadTransition) (t : ℕ) →
        IsSourceRun p setup IsBeforeEntry transitions →
        IsPartOf (thread_run p setup t) (own_events t transitions) }
{}

/// A walk by a list of entries is a run, with the part of one entry after that of another, and ends where the walk does.
pub fn law_walk_run()
    ensures { (code : Code) (setup : SetupView) (entries : List Entry) (end : State Told) →
        walk_of code setup entries (start_state code setup) ≡ Some end →
        run_of code setup (labels_of_walk code setup entries) ≡ Some end }
{}

/// So the events of a walk by the code of a sound core tree are a run of the source, whatever list of entries it goes by, and
/// the bytes that the walk tells are those that this run prints.
pub fn law_walk_events()
    ensures { (p : Program) (setup : SetupView) (entries : List Entry) (end : State Told) →
        IsSound p →
        IsWithinLimits setup →
        walk_of (lowered (resolved p)) setup entries (start_state (lowered (resolved p)) setup) ≡ Some end →
        IsSourceRun p setup IsBeforeEntry (events_of_walk (lowered (resolved p)) setup entries)
        × (out_of (lowered (resolved p)) setup entries (start_state (lowered (resolved p)) setup) ≡ bytes_of (events_of_walk (lowered (resolved p)) setup entries)) }
{}
