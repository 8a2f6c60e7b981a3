//! The laws of order.
ghost use Rattle.std.specs.Prelude.{◌≡◌, ◌≢◌, ◌<◌, ℕ, List, Some};
ghost use Rattle.sync_objects.specs.Setup.{SetupView, IsWithinLimits};
ghost use Rattle.sync_objects.specs.declared.entry.Entry.{Entry};
ghost use Rattle.happens_before.specs.Orders.{IsOrderedWalk};
ghost use Rattle.core_run.specs.Histories.{HaveEnded, list_of, run_of};
ghost use Rattle.core_run.specs.Machine.{Told, machine, start_state};
ghost use Rattle.core_run.specs.Walks.{walk_of};
ghost use Rattle.lock_sound.specs.Weakened.{Analysed, IsAnalysed};
ghost use Rattle.run_theory.specs.Labels.{Label};
ghost use Rattle.run_theory.specs.Laws.{Conflict};
ghost use Rattle.run_theory.specs.Ordered.{Event, event_access, event_at, event_thread, Ordered};
ghost use Rattle.run_theory.specs.Places.{ComeInOrder, IsNth};
ghost use Rattle.run_theory.specs.Steps.{State};

/// In every run of weakened code two conflicting accesses of two threads are ordered: a chain of operations, each of which passes
/// its object to the next, leads from the earlier one to the later one.
pub fn law_ordered()
    ensures { (a : Analysed) (setup : SetupView) (labels : List Label) (i j : ℕ) (first second : Event) (end : State Told) →
        let events = event_at (machine a.weak setup) labels (start_state a.weak setup) in
        IsAnalysed a →
        IsWithinLimits setup →
        run_of a.weak setup labels ≡ Some end →
        i < j →
        events i ≡ Some first →
        events j ≡ Some second →
        event_thread first ≢ event_thread second →
        Conflict (event_access first) (event_access second) →
        Ordered events i j }
{}

/// So are they in the walk of any list of entries on weakened code: that of a log that `replay` reads, a forged one too.
pub fn law_ordered_walk()
    ensures { (a : Analysed) (setup : SetupView) (entries : List Entry) (end : State Told) →
        IsAnalysed a →
        IsWithinLimits setup →
        walk_of a.weak setup entries (start_state a.weak setup) ≡ Some end →
        IsOrderedWalk a.weak setup entries }
{}

/// So two runs of weakened code whose threads have equal lists of entries, and all of whose threads have ended, have their
/// conflicting accesses in one order: whichever comes first in the one run comes first in the other.
pub fn law_same_order()
    ensures { (a : Analysed) (setup : SetupView) (labels other : List Label) (end other_end : State Told) (i j t n u k : ℕ) (earlier later : Event) →
        IsAnalysed a →
        IsWithinLimits setup →
        run_of a.weak setup labels ≡ Some end →
        run_of a.weak setup other ≡ Some other_end →
        HaveEnded a.weak setup end →
        HaveEnded a.weak setup other_end →
        ((v : ℕ) → list_of end v ≡ list_of other_end v) →
        i < j →
        IsNth (event_at (machine a.weak setup) labels (start_state a.weak setup)) t n earlier i →
        IsNth (event_at (machine a.weak setup) labels (start_state a.weak setup)) u k later j →
        t ≢ u →
        Conflict (event_access earlier) (event_access later) →
        ComeInOrder (event_at (machine a.weak setup) other (start_state a.weak setup)) t n earlier u k later }
{}
