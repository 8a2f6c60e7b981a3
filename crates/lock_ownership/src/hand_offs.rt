//! Laws of how threads are handed over, over the definitions alone: their functions do nothing.

ghost use Rattle.std.specs.Prelude.{◌≡◌, ◌≢◌, ◌<◌, ℕ, pos, List, Some};
ghost use Rattle.sync_objects.specs.Setup.{SetupView, IsWithinLimits};
ghost use Rattle.sync_objects.specs.declared.operation.OpName.TheVariants.{Join, Start};
ghost use Rattle.flow_code.specs.declared.code.Code.{Code};
ghost use Rattle.flow_code.specs.Settle.{IsRunnable};
ghost use Rattle.core_run.specs.Machine.{machine, start_state};
ghost use Rattle.run_theory.specs.Labels.{Label};
ghost use Rattle.run_theory.specs.Laws.{NoAccess};
ghost use Rattle.run_theory.specs.Ordered.{Event, event_access, event_at, event_thread, Ordered};
ghost use Rattle.lock_ownership.specs.HandOffs.{HasEnded, IsNoOpening, IsOnSlot, IsStarted};

/// Law: each thread but the first begins before all of its other events, unless it is closed, and it was started before its
/// begin, once in the run. The start passes to the begin.
pub fn law_started()
    ensures { (code : Code) (setup : SetupView) (labels : List Label) (j : ℕ) (event : Event) →
        let events = event_at (machine code setup) labels (start_state code setup) in
        IsRunnable code →
        IsWithinLimits setup →
        events j ≡ Some event →
        event_thread event ≢ 0 →
        IsNoOpening event →
        IsStarted events (event_thread event) j }
{}

/// Law: before a join that answers 0 the joined thread has ended its slot, after which it accesses nothing. The end passes
/// to the join.
pub fn law_ended()
    ensures { (code : Code) (setup : SetupView) (labels : List Label) (k t b : ℕ) →
        let events = event_at (machine code setup) labels (start_state code setup) in
        IsRunnable code →
        IsWithinLimits setup →
        (joins : IsOnSlot events Join t k b) →
        joins.answer ≡ pos 0 →
        HasEnded events k t b joins }
{}

/// Law: what a thread makes before it starts another one is ordered before all that the other makes after its begin.
pub fn law_ordered_by_start()
    ensures { (code : Code) (setup : SetupView) (labels : List Label) (t k i a j : ℕ) (first second : Event) →
        let events = event_at (machine code setup) labels (start_state code setup) in
        IsRunnable code →
        IsWithinLimits setup →
        IsOnSlot events Start t k a →
        events i ≡ Some first →
        event_thread first ≡ t →
        i < a →
        events j ≡ Some second →
        event_thread second ≡ k →
        IsNoOpening second →
        Ordered events i j }
{}

/// Law: each access of a thread is ordered before all that the thread makes which has joined it.
pub fn law_ordered_by_join()
    ensures { (code : Code) (setup : SetupView) (labels : List Label) (t k i b j : ℕ) (first second : Event) →
        let events = event_at (machine code setup) labels (start_state code setup) in
        IsRunnable code →
        IsWithinLimits setup →
        (joins : IsOnSlot events Join t k b) →
        joins.answer ≡ pos 0 →
        events i ≡ Some first →
        event_thread first ≡ k →
        event_access first ≢ NoAccess →
        b < j →
        events j ≡ Some second →
        event_thread second ≡ t →
        Ordered events i j }
{}
