//! Laws of states that are resumed, over the definitions alone: their functions do nothing.

ghost use Rattle.std.specs.Prelude.{◌≡◌, ℕ, List, drop, length};
ghost use Rattle.sync_objects.specs.Setup.{SetupView, IsWithinLimits};
ghost use Rattle.sync_objects.specs.declared.entry.Entry.{Entry};
ghost use Rattle.flow_code.specs.Settle.{IsRunnable};
ghost use Rattle.flow_code.specs.declared.code.Code.{Code};
ghost use Rattle.thread_interpreter.specs.declared.access.Formula.{Formula};
ghost use Rattle.core_run.specs.Histories.{HasItsCells};
ghost use Rattle.core_run.specs.Machine.{Told};
ghost use Rattle.core_run.specs.Walks.{WalkFrom, WalkIs};
ghost use Rattle.core_run.specs.declared.outcome.Walk.{Walk};
ghost use Rattle.run_theory.specs.Steps.{State};
ghost use Rattle.snapshots.specs.Snapshots.{IsResumable, resumed_state, snapshot_of};
ghost use Rattle.checkpoint.specs.Alike.{WalkAlike};
ghost use Rattle.checkpoint.specs.Going.{LacksNone};
ghost use Rattle.checkpoint.specs.Resuming.{IsRest, IsStateAfter};

/// Law: the state after some entries of a log and the state that its snapshot stands for go on alike: whatever entries
/// follow, both allow them or neither does, they print the same, and end in the same way.
pub fn law_alike()
    ensures { (code : Code) (s : SetupView) (es more : List Entry) (k : ℕ) (st : State Told) →
        IsRunnable code →
        IsWithinLimits s →
        IsStateAfter code s es k st →
        WalkAlike code s more st (resumed_state code s (snapshot_of code s k st)) }
{}

/// Law: the walk of the rest of a log from a snapshot of the state before it comes to what the walk of the whole log comes
/// to: it ends or traps as that does, with what is printed from there on, or is wrong at the same position.
pub fn law_rest()
    ensures { (code : Code) (s : SetupView) (es : List Entry) (k : ℕ) (st : State Told) (f g : Formula) (whole rest : Walk) →
        IsRunnable code →
        IsWithinLimits s →
        IsStateAfter code s es k st →
        WalkIs code s es f whole →
        WalkFrom code s (resumed_state code s (snapshot_of code s k st)) k (drop k es) g rest →
        IsRest code s st (drop k es) whole rest }
{}

/// Law: where the machine has the cell of each load and store that comes next, no thread comes to a cell that there isn't on
/// the walk of the rest from such a snapshot.
pub fn law_has_cells()
    ensures { (code : Code) (s : SetupView) (es : List Entry) (k : ℕ) (st : State Told) →
        IsRunnable code →
        IsWithinLimits s →
        HasItsCells code s →
        IsStateAfter code s es k st →
        LacksNone code s (resumed_state code s (snapshot_of code s k st)) (drop k es) }
{}

/// Law: the snapshot of the state after some entries of a log is one from which `resume` can go on.
pub fn law_can_resume()
    ensures { (code : Code) (s : SetupView) (es : List Entry) (k : ℕ) (st : State Told) →
        IsRunnable code →
        IsWithinLimits s →
        IsStateAfter code s es k st →
        IsResumable code s (length es) (snapshot_of code s k st) }
{}
