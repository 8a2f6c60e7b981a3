//! The laws of weakened code's runs.
ghost use Rattle.std.specs.Prelude.{◌≡◌, ◌<◌, ◌++◌, Bool, true, ℕ, List, Some, slice_get};
ghost use Rattle.sync_objects.specs.Setup.{SetupView, IsWithinLimits};
ghost use Rattle.sync_objects.specs.declared.entry.Noted.{Noted};
ghost use Rattle.sync_objects.specs.declared.object.ObjId.{ObjId};
ghost use Rattle.sync_objects.specs.declared.operation.Op.{Op};
ghost use Rattle.word_semantics.specs.declared.event.Action.TheVariants.{Operate};
ghost use Rattle.flow_code.specs.Settle.{next};
ghost use Rattle.core_run.specs.Histories.{run_of, HasItsCells, HasNoRace, HaveEnded, IsReachable, list_of, lists_of, entries_in};
ghost use Rattle.core_run.specs.Machine.{Told, machine, start_state};
ghost use Rattle.core_run.specs.Walks.{walk_of};
ghost use Rattle.core_run.specs.Words.{cells_of, has_object};
ghost use Rattle.lock_sound.specs.Weakened.{Analysed, IsAnalysed};
ghost use Rattle.access_cells.specs.Accesses.{names_cell};
ghost use Rattle.run_theory.specs.Labels.{Label};
ghost use Rattle.run_theory.specs.Merge.{IsMerge, written_merge};
ghost use Rattle.run_theory.specs.Paths.{AreComparable, BeginsLike, StopsBefore, path};
ghost use Rattle.run_theory.specs.Steps.{State};

/// No state that weakened code reaches is a race: in none of them do two threads have conflicting accesses next, over every
/// list of labels, with revokes, stops and closes.
pub fn law_no_race()
    ensures { (a : Analysed) (setup : SetupView) →
        IsAnalysed a →
        IsWithinLimits setup →
        HasNoRace a.weak setup }
{}

/// In each state that weakened code reaches, over every list of labels, the setup has each cell that a thread's next action
/// names, and the object of each operation that comes next. So the machine refuses a thread's own step only where none comes
/// next.
pub fn law_cells()
    ensures cells { (a : Analysed) (setup : SetupView) (state : State Told) (t cell : ℕ) (store : Bool) (told : Told) →
        IsAnalysed a →
        IsWithinLimits setup →
        IsReachable a.weak setup state →
        slice_get state.threads t ≡ Some told →
        names_cell (next a.weak setup t told.thread) ≡ Some (cell, store) →
        cell < cells_of a.weak setup }
    ensures objects { (a : Analysed) (setup : SetupView) (state : State Told) (t : ℕ) (operation : Op) (object : ObjId) (told : Told) →
        IsAnalysed a →
        IsWithinLimits setup →
        IsReachable a.weak setup state →
        slice_get state.threads t ≡ Some told →
        next a.weak setup t told.thread ≡ Operate operation object →
        has_object a.weak setup object ≡ true }
    ensures refused { (a : Analysed) (setup : SetupView) → IsAnalysed a → IsWithinLimits setup → HasItsCells a.weak setup }
{}

/// Two runs of weakened code whose threads have equal lists of entries, and all of whose threads have ended, end in one state:
/// each thread has made the same accesses and printed the same bytes.
pub fn law_converge()
    ensures { (a : Analysed) (setup : SetupView) (labels other : List Label) (end other_end : State Told) →
        IsAnalysed a →
        IsWithinLimits setup →
        run_of a.weak setup labels ≡ Some end →
        run_of a.weak setup other ≡ Some other_end →
        HaveEnded a.weak setup end →
        HaveEnded a.weak setup other_end →
        ((t : ℕ) → list_of end t ≡ list_of other_end t) →
        end ≡ other_end }
{}

/// Every merge of the lists of a run of weakened code in which all threads have ended walks to the end of that run.
pub fn law_merges()
    ensures { (a : Analysed) (setup : SetupView) (labels : List Label) (end : State Told) (merged : List Noted) →
        IsAnalysed a →
        IsWithinLimits setup →
        run_of a.weak setup labels ≡ Some end →
        HaveEnded a.weak setup end →
        IsMerge (list_of end) merged →
        walk_of a.weak setup (entries_in merged) (start_state a.weak setup) ≡ Some end }
{}

/// So does the one that is written as its log.
pub fn law_log()
    ensures { (a : Analysed) (setup : SetupView) (labels : List Label) (end : State Told) →
        IsAnalysed a →
        IsWithinLimits setup →
        run_of a.weak setup labels ≡ Some end →
        HaveEnded a.weak setup end →
        walk_of a.weak setup (entries_in (written_merge (lists_of end))) (start_state a.weak setup) ≡ Some end }
{}

/// Where each thread's list in one run of weakened code is a prefix of its list in another, and no thread has gone past the
/// count of its next entry there, the states of each thread in one of the two runs are a prefix of those in the other.
pub fn law_prefixes()
    ensures { (a : Analysed) (setup : SetupView) (labels other : List Label) (end other_end : State Told) (t : ℕ) →
        IsAnalysed a →
        IsWithinLimits setup →
        run_of a.weak setup labels ≡ Some end →
        run_of a.weak setup other ≡ Some other_end →
        BeginsLike (machine a.weak setup) labels other (start_state a.weak setup) →
        StopsBefore (machine a.weak setup) labels other (start_state a.weak setup) end →
        AreComparable (path (machine a.weak setup) t labels (start_state a.weak setup)) (path (machine a.weak setup) t other (start_state a.weak setup)) }
{}

/// The first part of a run of weakened code begins like the whole of it, and no thread has gone past the count of its next entry
/// there: it is what `law_prefixes` asks of two runs.
pub fn law_first_part()
    ensures { (a : Analysed) (setup : SetupView) (first more : List Label) (middle end : State Told) →
        IsAnalysed a →
        IsWithinLimits setup →
        run_of a.weak setup first ≡ Some middle →
        run_of a.weak setup (first ++ more) ≡ Some end →
        BeginsLike (machine a.weak setup) first (first ++ more) (start_state a.weak setup)
        × StopsBefore (machine a.weak setup) first (first ++ more) (start_state a.weak setup) middle }
{}
