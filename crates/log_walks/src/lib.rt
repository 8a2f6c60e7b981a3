//! The walks of logs that threads have followed side by side, each by its own entries: they are those of the log walked
//! alone, whatever the interleaving was.
//!
//! Its contract: `law_wrong`, `law_known`, `law_whole`, `law_unfinished`: what the walk of a log that threads have followed
//! comes to. `known_wrong` tells the first entry that its object never allows.
//! It knows nothing of sources, texts, how threads are run.
#![tactic(auto)]

mod known;

ghost use Rattle.std.specs.Prelude.{◌≡◌, ◌≤◌, ◌<◌, ◌↔◌, ◌-◌, ◌^◌, ℕ, List, Some, length, slice_get};
ghost use Rattle.sync_objects.specs.Setup.{SetupView, IsWithinLimits};
ghost use Rattle.sync_objects.specs.declared.entry.Entry.{Entry};
ghost use Rattle.flow_code.specs.Settle.{IsRunnable};
ghost use Rattle.flow_code.specs.declared.code.Code.{Code};
ghost use Rattle.core_run.specs.Histories.{HasNoRace, HaveEnded};
ghost use Rattle.core_run.specs.Machine.{Told, start_state};
ghost use Rattle.core_run.specs.Walks.{IsRefusedAt, IsUnfinished, walk_of};
ghost use Rattle.run_theory.specs.Steps.{State};
ghost use Rattle.log_walks.specs.Followed.{Followed, HaveCome};
ghost use Rattle.log_walks.specs.Known.{IsWrongAt};

pub use known::known_wrong;

/// Where the threads have followed a log up to a position in it, its walk is refused there and not before.
pub fn law_wrong()
    ensures { (code : Code) (s : SetupView) (es : List Entry) (departure : ℕ) (end : State Told) →
        IsRunnable code →
        IsWithinLimits s →
        HasNoRace code s →
        Followed code s es departure end →
        ((k : ℕ) (e : Entry) → slice_get es k ≡ Some e → e.thread < length end.threads) →
        departure < length es →
        IsRefusedAt code s (start_state code s) es departure }
{}

/// Where they have come to an entry that its object never allows, its walk is refused there and not before.
pub fn law_known()
    ensures { (code : Code) (s : SetupView) (es : List Entry) (departure : ℕ) (end : State Told) →
        IsRunnable code →
        IsWithinLimits s →
        HasNoRace code s →
        HaveCome code s es departure end →
        ((k : ℕ) (e : Entry) → slice_get es k ≡ Some e → e.thread < length end.threads) →
        length es < 2 ^ 32 - 1 →
        IsWrongAt s.slots es departure →
        IsRefusedAt code s (start_state code s) es departure }
{}

/// Where they have followed it to its end and all have ended, its walk comes to the same end.
pub fn law_whole()
    ensures { (code : Code) (s : SetupView) (es : List Entry) (departure : ℕ) (end : State Told) →
        IsRunnable code →
        IsWithinLimits s →
        HasNoRace code s →
        Followed code s es departure end →
        ((k : ℕ) (e : Entry) → slice_get es k ≡ Some e → e.thread < length end.threads) →
        length es ≤ departure →
        HaveEnded code s end →
        walk_of code s es (start_state code s) ≡ Some end }
{}

/// Where they have followed it to its end and some thread hasn't ended, its walk takes all entries and leaves a thread that
/// hasn't.
pub fn law_unfinished()
    ensures { (code : Code) (s : SetupView) (es : List Entry) (departure : ℕ) (end : State Told) →
        IsRunnable code →
        IsWithinLimits s →
        HasNoRace code s →
        Followed code s es departure end →
        ((k : ℕ) (e : Entry) → slice_get es k ≡ Some e → e.thread < length end.threads) →
        length es ≤ departure →
        (HaveEnded code s end → ⊥) →
        IsUnfinished code s (start_state code s) es (length es) }
{}
