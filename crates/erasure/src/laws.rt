//! The laws of codes with weak locks.
ghost use Rattle.std.specs.Prelude.{◌≡◌, ℕ, true, List, length, Some};
ghost use Rattle.sync_objects.specs.Setup.{SetupView, IsWithinLimits};
ghost use Rattle.sync_objects.specs.declared.entry.Entry.{Entry};
ghost use Rattle.flow_code.specs.declared.code.Code.{Code};
ghost use Rattle.flow_code.specs.Valid.{is_valid};
ghost use Rattle.facts.specs.declared.pair.Pair.{Pair};
ghost use Rattle.facts.specs.PointsTo.{Tables};
ghost use Rattle.weak_lock_facts.specs.declared.grain.Grained.{Grained};
ghost use Rattle.weak_lock_facts.specs.declared.range.Range.{Range};
ghost use Rattle.weak_code.specs.Stripped.{strip};
ghost use Rattle.weak_code.specs.Weakened.{weakened};
ghost use Rattle.core_tree.specs.Core.{Program};
ghost use Rattle.core_tree.specs.Meaning.{run_of as thread_run};
ghost use Rattle.lower_sound.specs.Follows.{Follows};
ghost use Rattle.call_targets.specs.Resolved.{resolved};
ghost use Rattle.flow_lower.specs.Lowered.{lowered};
ghost use Rattle.core_tree.specs.Sound.{IsSound};
ghost use Rattle.core_run.specs.Histories.{run_of};
ghost use Rattle.core_run.specs.Machine.{Told, start_state};
ghost use Rattle.thread_interpreter.specs.Starts.{start_thread};
ghost use Rattle.core_run.specs.Walks.{walk_of, out_of};
ghost use Rattle.run_theory.specs.Labels.{Label};
ghost use Rattle.run_theory.specs.Steps.{State};
ghost use Rattle.lowering_simulation.specs.SourceRuns.{ThreadTransition, IsSourceRun, bytes_of};
ghost use Rattle.lowering_simulation.specs.ThreadEvents.{own_events, IsPartOf};
ghost use Rattle.erasure.specs.Erased.{erased_events, erased_walk, IsAnywhere};

/// Each run of the weakened code of a sound core tree, in any interleaving, with any revokes, stops and closes, is a run of
/// the source once the operations on stripes are left out. This holds whatever pairs, ranges and grains the code was weakened
/// by. Anywhere in its run a thread may trap since its list in the log, which has its operations on stripes too, is full.
pub fn law_erased_run()
    ensures { (p : Program) (t : Tables) (vs : List Pair) (rs : List Range) (rows : List Grained) (setup : SetupView) (labels : List Label) (end : State Told) →
        IsSound p →
        IsWithinLimits setup →
        run_of (weakened (lowered (resolved p)) t vs rs rows) setup labels ≡ Some end →
        IsSourceRun p setup IsAnywhere (erased_events (weakened (lowered (resolved p)) t vs rs rows) setup labels) }
{}

/// So is each walk of it, by whatever list of entries, and the bytes that the walk tells are those that this run of the source
/// prints.
pub fn law_erased_walk()
    ensures { (p : Program) (t : Tables) (vs : List Pair) (rs : List Range) (rows : List Grained) (setup : SetupView) (entries : List Entry) (end : State Told) →
        IsSound p →
        IsWithinLimits setup →
        walk_of (weakened (lowered (resolved p)) t vs rs rows) setup entries (start_state (weakened (lowered (resolved p)) t vs rs rows) setup) ≡ Some end →
        IsSourceRun p setup IsAnywhere (erased_walk (weakened (lowered (resolved p)) t vs rs rows) setup entries)
        × (out_of (weakened (lowered (resolved p)) t vs rs rows) setup entries (start_state (weakened (lowered (resolved p)) t vs rs rows) setup) ≡ bytes_of (erased_walk (weakened (lowered (resolved p)) t vs rs rows) setup entries)) }
{}

/// In such a run of the source each thread's own events are the first ones of its run, on the answers that they got; after
/// them it may have trapped since its list in the log was full.
pub fn law_thread_events()
    ensures { (p : Program) (setup : SetupView) (transitions : List ThreadTransition) (t : ℕ) →
        IsSourceRun p setup IsAnywhere transitions →
        IsPartOf (thread_run p setup t) (own_events t transitions) }
{}

/// Where the threads of a code make the runs of a source's threads, and its global cells are the source's, each run of a valid
/// code that is this one without its weak locks is a run of the source, but for its operations on stripes.
pub fn law_erasure()
    ensures { (p : Program) (plain code : Code) (setup : SetupView) (labels : List Label) (end : State Told) →
        IsWithinLimits setup →
        is_valid code ≡ true →
        strip code ≡ plain →
        plain.globals ≡ p.globals →
        plain.global_kinds ≡ p.global_kinds →
        length p.global_kinds ≡ length p.globals →
        ((t : ℕ) → Follows plain setup t (thread_run p setup t) (start_thread plain setup t)) →
        run_of code setup labels ≡ Some end →
        IsSourceRun p setup IsAnywhere (erased_events code setup labels) }
{}

/// What `law_erased_run` says of weakened code holds of every valid code that is the source's once its weak locks are taken
/// out, wherever its regions are taken and given.
pub fn law_stripped_run()
    ensures { (p : Program) (code : Code) (setup : SetupView) (labels : List Label) (end : State Told) →
        IsSound p →
        IsWithinLimits setup →
        is_valid code ≡ true →
        strip code ≡ lowered (resolved p) →
        run_of code setup labels ≡ Some end →
        IsSourceRun p setup IsAnywhere (erased_events code setup labels) }
{}

/// So does what `law_erased_walk` says.
pub fn law_stripped_walk()
    ensures { (p : Program) (code : Code) (setup : SetupView) (entries : List Entry) (end : State Told) →
        IsSound p →
        IsWithinLimits setup →
        is_valid code ≡ true →
        strip code ≡ lowered (resolved p) →
        walk_of code setup entries (start_state code setup) ≡ Some end →
        IsSourceRun p setup IsAnywhere (erased_walk code setup entries)
        × (out_of code setup entries (start_state code setup) ≡ bytes_of (erased_walk code setup entries)) }
{}
