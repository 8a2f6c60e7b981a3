//! The theory of runs over any thread language: two steps that change places, a thread's step that leads, merges of
//! lists of entries, the walk that they stand for, accesses ordered by a lock, in whatever ways its threads hold it,
//! and what that order means: it is that of the run, and of each other run with the same lists.
//!
//! Its contract: its laws hold for every lawful machine (`specs/Laws.antt`).
//! It knows nothing of what a thread computes.
#![tactic(auto)]

ghost use Rattle.std.specs.Prelude.{◌≡◌, ◌≢◌, ◌<◌, ◌↔◌, ℕ, Bool, true, List, Some, map, length};
ghost use Rattle.sync_objects.specs.declared.entry.Entry.{Entry};
ghost use Rattle.sync_objects.specs.declared.entry.Noted.{Noted};
ghost use Rattle.sync_objects.specs.declared.mode.Mode.{Mode};
ghost use Rattle.sync_objects.specs.declared.object.ObjId.{ObjId};
ghost use Rattle.sync_objects.specs.Modes.{excludes};
ghost use Rattle.run_theory.specs.Labels.{Label};
ghost use Rattle.run_theory.specs.Laws.{IsLawful, IsRaceFree, NoAccess};
ghost use Rattle.run_theory.specs.Merge.{IsMerge, lists_from, written_merge};
ghost use Rattle.run_theory.specs.Ordered.{Event, event_access, event_at, event_thread, IsHeldBy, Ordered, state_at};
ghost use Rattle.run_theory.specs.Paths.{AreComparable, BeginsLike, path, StopsBefore};
ghost use Rattle.run_theory.specs.Places.{ComeInOrder, IsNth};
ghost use Rattle.run_theory.specs.Steps.{AllEnded, entries_of, Machine, number_at, run, State, trace};
ghost use Rattle.run_theory.specs.Walk.{IsSoloRun, walk};

/// Two runs from one state whose threads have equal lists of entries, and all of whose threads have ended, end in
/// one state.
pub fn law_converge<T>()
    ensures { (machine : Machine T) (start end other_end : State T) (labels other : List Label) →
        IsLawful machine →
        IsRaceFree machine start →
        run machine labels start ≡ Some end →
        run machine other start ≡ Some other_end →
        AllEnded machine end →
        AllEnded machine other_end →
        ((t : ℕ) → entries_of t (trace machine labels start) ≡ entries_of t (trace machine other start)) →
        end ≡ other_end }
{}

/// The entries of a run in its own order are a merge of its lists.
pub fn law_own_order<T>()
    ensures { (machine : Machine T) (start end : State T) (labels : List Label) →
        IsLawful machine →
        run machine labels start ≡ Some end →
        IsMerge (λ t. entries_of t (trace machine labels start)) (trace machine labels start) }
{}

/// Every merge of a run's lists walks to the run's end, if all threads have ended there.
pub fn law_merges_walk<T>()
    ensures { (machine : Machine T) (start end : State T) (labels : List Label) (merged : List Noted) →
        IsLawful machine →
        IsRaceFree machine start →
        run machine labels start ≡ Some end →
        AllEnded machine end →
        IsMerge (λ t. entries_of t (trace machine labels start)) merged →
        walk machine (map (λ (x : Noted). x.entry) merged) start ≡ Some end }
{}

/// The written merge of a run's lists is never stuck: where no object had an operation at the start, it takes all
/// entries, and is a merge.
pub fn law_written_merge<T>()
    ensures { (machine : Machine T) (start end : State T) (labels : List Label) →
        IsLawful machine →
        run machine labels start ≡ Some end →
        ((o : ObjId) → machine.has_object o ≡ true → number_at machine start.words o ≡ 0) →
        let entries = trace machine labels start in
        IsMerge (λ t. entries_of t entries) (written_merge (lists_from 0 (length start.threads) entries)) }
{}

/// The walk of a list of entries answers a state exactly where a run leads to it that has one part for each entry:
/// loads, stores and marks of the entry's thread, and then the one label that adds the entry.
pub fn law_walk<T>()
    ensures { (machine : Machine T) (start end : State T) (entries : List Entry) →
        IsLawful machine →
        (walk machine entries start ≡ Some end) ↔ IsSoloRun machine entries start end }
{}

/// Where each thread's list in one run is a prefix of its list in another, and no thread is past the count of its next
/// entry there, the states of each thread in one of the two runs are a prefix of those in the other.
pub fn law_prefixes<T>()
    ensures { (machine : Machine T) (start end other_end : State T) (labels other : List Label) (t : ℕ) →
        IsLawful machine →
        IsRaceFree machine start →
        run machine labels start ≡ Some end →
        run machine other start ≡ Some other_end →
        BeginsLike machine labels other start →
        StopsBefore machine labels other start end →
        AreComparable (path machine t labels start) (path machine t other start) }
{}

/// An access and a later event of another thread, each made while its thread holds one lock, are ordered by
/// operations that pass something on, where the modes in which the two hold it exclude each other.
pub fn law_ordered_by_lock<T>()
    ensures { (machine : Machine T) (start before after : State T) (labels : List Label) (i j : ℕ) (first second : Event) →
        (lock : ObjId) (holds : Mode → ℕ → State T → Bool) (first_mode second_mode : Mode) →
        IsLawful machine →
        IsHeldBy machine lock holds start →
        excludes first_mode second_mode ≡ true →
        i < j →
        event_at machine labels start i ≡ Some first →
        event_at machine labels start j ≡ Some second →
        event_access first ≢ NoAccess →
        event_thread first ≢ event_thread second →
        state_at machine labels start i ≡ Some before →
        state_at machine labels start j ≡ Some after →
        holds first_mode (event_thread first) before ≡ true →
        holds second_mode (event_thread second) after ≡ true →
        Ordered (event_at machine labels start) i j }
{}

/// Places of a run that are ordered by operations stand in this order in it.
pub fn law_order_is_in_time<T>()
    ensures { (machine : Machine T) (start : State T) (labels : List Label) (i j : ℕ) →
        IsLawful machine →
        Ordered (event_at machine labels start) i j →
        i < j }
{}

/// In two runs from one state whose threads have equal lists of entries, and all of whose threads have ended, each
/// thread makes the same events: its event number n of the one run is its event number n of the other.
pub fn law_same_events<T>()
    ensures { (machine : Machine T) (start end other_end : State T) (labels other : List Label) (i t n : ℕ) (event : Event) →
        IsLawful machine →
        IsRaceFree machine start →
        run machine labels start ≡ Some end →
        run machine other start ≡ Some other_end →
        AllEnded machine end →
        AllEnded machine other_end →
        ((t : ℕ) → entries_of t (trace machine labels start) ≡ entries_of t (trace machine other start)) →
        IsNth (event_at machine labels start) t n event i →
        (place : ℕ) × IsNth (event_at machine other start) t n event place }
{}

/// Events that are ordered in one of two such runs come in the same order in the other one.
pub fn law_same_order<T>()
    ensures { (machine : Machine T) (start end other_end : State T) (labels other : List Label) (i j t n u k : ℕ) (first second : Event) →
        IsLawful machine →
        IsRaceFree machine start →
        run machine labels start ≡ Some end →
        run machine other start ≡ Some other_end →
        AllEnded machine end →
        AllEnded machine other_end →
        ((t : ℕ) → entries_of t (trace machine labels start) ≡ entries_of t (trace machine other start)) →
        IsNth (event_at machine labels start) t n first i →
        IsNth (event_at machine labels start) u k second j →
        Ordered (event_at machine labels start) i j →
        ComeInOrder (event_at machine other start) t n first u k second }
{}
