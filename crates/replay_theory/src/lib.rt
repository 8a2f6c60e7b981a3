//! Runs that follow a log, of any lawful machine without a race: each thread makes its entries of the log, with the
//! numbers that they have there, whatever the others do meanwhile.
//!
//! Its contract: `law_refused`, `law_taken`, `law_front`: how far the log's walk goes.
//! It knows nothing of what a thread computes.
#![tactic(auto)]

ghost use Rattle.std.specs.Prelude.{◌≡◌, ◌↔◌, ℕ, ◌++◌, ◌∷◌, [], List, Some, None, slice_get};
ghost use Rattle.sync_objects.specs.declared.entry.Entry.{Entry};
ghost use Rattle.run_theory.specs.Labels.{Label};
ghost use Rattle.run_theory.specs.Laws.{IsLawful, IsRaceFree};
ghost use Rattle.run_theory.specs.Steps.{AllEnded, entries_of, Machine, run, State, trace};
ghost use Rattle.run_theory.specs.Walk.{walk};
ghost use Rattle.replay_theory.specs.Following.{Departs, EndedRest, Follows, HasMade, IsFresh, LeavesAtLeast};
ghost use Rattle.replay_theory.specs.Numbered.{numbered, with_number};

/// Where the threads of a run that follows a log have made the log's first entries, and the thread of the next entry has made
/// no more of its own and departs from it, the walk of the log takes these entries and is refused at the next.
pub fn law_refused<T>()
    ensures { (machine : Machine T) (floor : Entry → ℕ) (start end : State T) (labels : List Label) (front back : List Entry) (e : Entry) (th : T) →
        IsLawful machine →
        LeavesAtLeast machine floor →
        IsRaceFree machine start →
        IsFresh machine start →
        run machine labels start ≡ Some end →
        Follows machine (front ++ e ∷ back) labels start →
        HasMade machine front labels start →
        entries_of e.thread (trace machine labels start) ≡ entries_of e.thread (numbered front) →
        slice_get end.threads e.thread ≡ Some th →
        Departs machine floor (entries_of e.thread (numbered front)) end.words th (with_number (numbered front) e) →
        (before : State T) × (walk machine front start ≡ Some before) × (walk machine (front ++ e ∷ []) start ≡ None) }
{}

/// Where the threads of a run that follows a log have made all its entries, the log has a walk. All threads have ended after it
/// exactly where they have at the end of the run, and then the walk comes to that end.
pub fn law_taken<T>()
    ensures { (machine : Machine T) (start end : State T) (labels : List Label) (entries : List Entry) →
        IsLawful machine →
        EndedRest machine →
        IsRaceFree machine start →
        run machine labels start ≡ Some end →
        Follows machine entries labels start →
        HasMade machine entries labels start →
        (last : State T) × (walk machine entries start ≡ Some last) × (AllEnded machine last ↔ AllEnded machine end) × (AllEnded machine end → last ≡ end) }
{}

/// Where the threads of a run that follows a log have made the log's first entries, the walk of the log takes these.
pub fn law_front<T>()
    ensures { (machine : Machine T) (start end : State T) (labels : List Label) (front back : List Entry) →
        IsLawful machine →
        IsRaceFree machine start →
        run machine labels start ≡ Some end →
        Follows machine (front ++ back) labels start →
        HasMade machine front labels start →
        (before : State T) × (walk machine front start ≡ Some before) }
{}
