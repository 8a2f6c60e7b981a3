//! Laws of the machine, over the definitions alone: their functions do nothing.

ghost use Rattle.std.specs.Prelude.{◌≡◌, ℕ, List, Some};
ghost use Rattle.sync_objects.specs.Setup.{SetupView, IsWithinLimits};
ghost use Rattle.sync_objects.specs.declared.entry.Noted.{Noted};
ghost use Rattle.flow_code.specs.declared.code.Code.{Code};
ghost use Rattle.flow_code.specs.Settle.{IsRunnable};
ghost use Rattle.core_run.specs.Histories.{run_of, IsReachable, HasNoRace, HaveEnded, list_of, lists_of, entries_in};
ghost use Rattle.core_run.specs.Kept.{IsKept};
ghost use Rattle.core_run.specs.Machine.{Told, machine, start_state};
ghost use Rattle.core_run.specs.Walks.{walk_of};
ghost use Rattle.run_theory.specs.Labels.{Label};
ghost use Rattle.run_theory.specs.Laws.{IsLawful};
ghost use Rattle.run_theory.specs.Merge.{IsMerge, written_merge};
ghost use Rattle.run_theory.specs.Steps.{State};

/// Law: the machine of a runnable code keeps to the laws of runs. A thread's own steps are loads and stores of cells,
/// marks, and operations of which each draws the next number of its object. Revokes, stops and closes are made of it
/// by others. Each object's word has a place of its own after the cells.
pub fn law_machine()
    ensures { (code : Code) (setup : SetupView) →
        IsRunnable code →
        IsWithinLimits setup →
        IsLawful (machine code setup) }
{}

/// Law: in each state that can be reached the threads' numbers are in range, a log allows each thread's entries, of
/// which at most two are ending ones, and each object's word is one that its kind can have, after at most 2^25 operations.
pub fn law_kept()
    ensures { (code : Code) (setup : SetupView) (state : State Told) →
        IsRunnable code →
        IsWithinLimits setup →
        IsReachable code setup state →
        IsKept code setup state }
{}

/// Law: where no two threads race in any state that can be reached, two runs in which all threads have ended and
/// each thread has the same list of entries end in one state.
pub fn law_converge()
    ensures { (code : Code) (setup : SetupView) (labels other : List Label) (end other_end : State Told) →
        IsRunnable code →
        IsWithinLimits setup →
        HasNoRace code setup →
        run_of code setup labels ≡ Some end →
        run_of code setup other ≡ Some other_end →
        HaveEnded code setup end →
        HaveEnded code setup other_end →
        ((t : ℕ) → list_of end t ≡ list_of other_end t) →
        end ≡ other_end }
{}

/// Law: where no two threads race in any state that can be reached, every merge of the lists of a run in which all
/// threads have ended walks to the end of that run.
pub fn law_merges()
    ensures { (code : Code) (setup : SetupView) (labels : List Label) (end : State Told) (merged : List Noted) →
        IsRunnable code →
        IsWithinLimits setup →
        HasNoRace code setup →
        run_of code setup labels ≡ Some end →
        HaveEnded code setup end →
        IsMerge (list_of end) merged →
        walk_of code setup (entries_in merged) (start_state code setup) ≡ Some end }
{}

/// Law: the written merge of the lists of a run takes all of their entries, and is a merge of them.
pub fn law_written_merge()
    ensures { (code : Code) (setup : SetupView) (labels : List Label) (end : State Told) →
        IsRunnable code →
        IsWithinLimits setup →
        run_of code setup labels ≡ Some end →
        IsMerge (list_of end) (written_merge (lists_of end)) }
{}
