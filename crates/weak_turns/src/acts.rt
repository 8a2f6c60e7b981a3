// The thread's own next action.
ghost use Rattle.std.specs.Prelude.{◌≡◌, ◌+◌, ◌<◌, ◌≤◌, false, length, true};
ghost use Rattle.word_semantics.specs.declared.event.Action.TheVariants as action;
ghost use Rattle.core_run.specs.Words.{cells_of};
ghost use Rattle.flow_code.specs.Constants.{constants_fit};
ghost use Rattle.flow_code.specs.Next.{has_ended};
ghost use Rattle.flow_code.specs.Valid.{is_valid};
ghost use Rattle.sync_objects.specs.Setup.{IsWithinLimits};
ghost use Rattle.thread_step.specs.Steps.{IsReady, next_of};
ghost use Rattle.weak_turns.specs.Shown.{IsCarrying, IsSettled};
ghost use Rattle.weak_turns.specs.Turns.{AccessIs, ActIs};

use crate::operations::{note_take, operate, tell_want};
use crate::played::Played;
use core_run::Action;
use shared_cells::{Cells, Seat};
use sync_objects::{ObjId, Op};
use thread_step::ThreadRun;

/// The thread's load of a cell.
#[inline(always)]
pub fn load(cells: &Cells, seat: &mut Seat, run: &mut ThreadRun, cell: u32)
    requires carrying { IsCarrying cells.now seat.old run.old }
    requires settled { IsSettled run.old }
    requires ready { IsReady run.old }
    requires next { next_of run.old ≡ action.Load cell }
    requires cell { cell < cells_of cells.now.code cells.now.setup }
    ensures carrying { IsCarrying cells.now seat.new run.new }
    ensures step { AccessIs seat.old seat.new (action.Load cell) }
    ensures entries { run.new.entries ≡ run.old.entries }
{
    let word = cells.load(seat, cell);
    run.take_answer(word.cast_signed(), 0);
}

/// The thread's store into a cell.
#[inline(always)]
pub fn store(cells: &Cells, seat: &mut Seat, run: &mut ThreadRun, cell: u32, value: u64)
    requires carrying { IsCarrying cells.now seat.old run.old }
    requires settled { IsSettled run.old }
    requires ready { IsReady run.old }
    requires next { next_of run.old ≡ action.Store cell value }
    requires cell { cell < cells_of cells.now.code cells.now.setup }
    ensures carrying { IsCarrying cells.now seat.new run.new }
    ensures step { AccessIs seat.old seat.new (action.Store cell value) }
    ensures entries { run.new.entries ≡ run.old.entries }
{
    cells.store(seat, cell, value);
    run.take_answer(0, 0);
}

/// The thread's mark, which its seat takes in at its next step.
#[inline(always)]
pub fn mark(cells: &Cells, seat: &mut Seat, run: &mut ThreadRun)
    requires carrying { IsCarrying cells.now seat.old run.old }
    requires settled { IsSettled run.old }
    requires ready { IsReady run.old }
    requires next { next_of run.old ≡ action.Mark }
    ensures carrying { IsCarrying cells.now seat.new run.new }
    ensures step { AccessIs seat.old seat.new action.Mark }
    ensures entries { run.new.entries ≡ run.old.entries }
{
    run.take_answer(0, 0);
    // no thread has more marks than events
    prove!(seat.marks < run.count());
    seat.marks += 1;
}

/// The next action of a thread whose quiet steps are made and that hasn't ended: a load, a store, a mark, or an operation, which is
/// attempted. In a valid code there is one, and what it names is there.
pub(crate) fn act(
    cells: &Cells,
    seat: &mut Seat,
    run: &mut ThreadRun,
    since: &mut [u64],
    turn: u64,
) -> Played
    requires valid { is_valid cells.now.code ≡ true }
    requires constants { constants_fit cells.now.code ≡ true }
    requires limits { IsWithinLimits cells.now.setup }
    requires carrying { IsCarrying cells.now seat.old run.old }
    requires settled { IsSettled run.old }
    requires ready { IsReady run.old }
    requires open { has_ended run.old.flow.kept.thread.phase ≡ false }
    ensures carrying { IsCarrying cells.now seat.new run.new }
    ensures entries { length run.new.entries ≤ length run.old.entries + 1 }
    ensures act { ActIs seat.old seat.new since.old since.new turn result }
{
    match run.next_action() {
        Action::Load { cell } => {
            load(cells, seat, run, cell);
            Played::Went
        }
        Action::Store { cell, value } => {
            store(cells, seat, run, cell, value);
            Played::Went
        }
        Action::Mark => {
            mark(cells, seat, run);
            Played::Went
        }
        Action::Operate { op, obj } => {
            let came = operate(cells, seat, run, op, obj, None);
            tell_want(cells, seat, op, obj, came);
            note_take(since, turn, op, obj, came);
            Played::Tried { op, obj, came }
        }
        Action::Quiet => unreachable!(),
        Action::Ended => unreachable!(),
    }
}
