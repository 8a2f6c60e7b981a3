//! The laws of chains: none is missing.
ghost use Rattle.std.specs.Prelude.{◌≡◌, ◌≢◌, ◌<◌, ℕ, true, List, Some};
ghost use Rattle.sync_objects.specs.Setup.{SetupView, IsWithinLimits};
ghost use Rattle.sync_objects.specs.declared.entry.Entry.{Entry};
ghost use Rattle.flow_code.specs.declared.code.Code.{Code};
ghost use Rattle.flow_code.specs.Settle.{IsRunnable};
ghost use Rattle.core_run.specs.Machine.{Told, machine, start_state};
ghost use Rattle.core_run.specs.Walks.{walk_of};
ghost use Rattle.lock_sound.specs.Weakened.{Analysed, IsAnalysed};
ghost use Rattle.run_theory.specs.Laws.{Conflict};
ghost use Rattle.run_theory.specs.Ordered.{event_access, event_at, Ordered};
ghost use Rattle.run_theory.specs.Steps.{State};
ghost use Rattle.lowering_simulation.specs.WalkEvents.{labels_of_walk};
ghost use Rattle.chain_report.specs.Accesses.{IsAccessOf};
ghost use Rattle.chain_report.specs.Chains.{is_chain};
ghost use Rattle.chain_report.specs.declared.point.Point.{Point};

/// Where two accesses of a walk are ordered, there is a chain over its entries between the points that name them: the entries
/// alone tell of each operation what it got and what it let go.
pub fn law_chain_exists()
    ensures { (code : Code) (setup : SetupView) (entries : List Entry) (end : State Told) (first second : Point) (i j : ℕ) →
        IsRunnable code →
        IsWithinLimits setup →
        walk_of code setup entries (start_state code setup) ≡ Some end →
        IsAccessOf code setup entries first i →
        IsAccessOf code setup entries second j →
        Ordered (event_at (machine code setup) (labels_of_walk code setup entries) (start_state code setup)) i j →
        (passes : List (ℕ × ℕ)) × (is_chain entries first second passes ≡ true) }
{}

/// So there is one for each two conflicting accesses of two threads in the walk of any list of entries on weakened code: that of a
/// forged log too.
pub fn law_conflict_has_chain()
    ensures { (a : Analysed) (setup : SetupView) (entries : List Entry) (end : State Told) (first second : Point) (i j : ℕ) →
        IsAnalysed a →
        IsWithinLimits setup →
        walk_of a.weak setup entries (start_state a.weak setup) ≡ Some end →
        (earlier : IsAccessOf a.weak setup entries first i) →
        (later : IsAccessOf a.weak setup entries second j) →
        i < j →
        first.thread ≢ second.thread →
        Conflict (event_access earlier.event) (event_access later.event) →
        (passes : List (ℕ × ℕ)) × (is_chain entries first second passes ≡ true) }
{}
