// A turn of a thread at its next entry.
ghost use Rattle.std.specs.Prelude.{◌≡◌, ◌<◌, None, IfOk, IfSome};
ghost use Rattle.flow_code.specs.Settle.{IsRunnable};
ghost use Rattle.shared_cells.specs.Seats.{view_of};
ghost use Rattle.sync_objects.specs.Setup.{IsWithinLimits};
ghost use Rattle.weak_turns.specs.Shown.{IsCarrying};
ghost use Rattle.weak_turns.specs.Turns.{SawNoMemory};
ghost use Rattle.replayer.specs.Following.{TriedIs};
ghost use Rattle.replayer.specs.Steps.{Comes, IsInStep, IsSet, told_at};

use crate::making::make;
use crate::step::Step;
use crate::tried::Tried;
use crate::wanted::Wanted;
use core_run::{Action, Noted};
use shared_cells::{Cells, Seat};
use std::alloc::AllocError;
use thread_step::ThreadRun;
use weak_turns::{load, mark, prepare, store};

// One load, store or mark of a thread that stands before the count of its entry.
fn go_on(cells: &Cells, seat: &mut Seat, run: &mut ThreadRun, next: Noted) -> Step
    requires runnable { IsRunnable cells.now.code }
    requires set { IsSet cells.now seat.old run.old next }
    requires count { run.old.flow.kept.thread.count < next.entry.count }
    ensures { Comes cells.now seat.old seat.new run.new next result }
{
    match run.next_action() {
        Action::Load { cell } => {
            if cell >= cells.cell_count() {
                return Step::Departs;
            }
            load(cells, seat, run, cell);
            Step::Goes
        }
        Action::Store { cell, value } => {
            if cell >= cells.cell_count() {
                return Step::Departs;
            }
            store(cells, seat, run, cell, value);
            Step::Goes
        }
        Action::Mark => {
            mark(cells, seat, run);
            Step::Goes
        }
        Action::Operate { .. } => Step::Departs,
        Action::Quiet => Step::Departs,
        Action::Ended => Step::Departs,
    }
}

// A step of a thread that hasn't ended, by its count.
fn follow(cells: &Cells, seat: &mut Seat, run: &mut ThreadRun, next: Noted) -> Step
    requires runnable { IsRunnable cells.now.code }
    requires limits { IsWithinLimits cells.now.setup }
    requires set { IsSet cells.now seat.old run.old next }
    requires in_step { IsInStep (told_at seat.old) next }
    ensures { Comes cells.now seat.old seat.new run.new next result }
{
    if run.count() < next.entry.count {
        return go_on(cells, seat, run, next);
    }
    if run.count() > next.entry.count {
        return Step::Departs;
    }
    make(cells, seat, run, next)
}

// A step of a thread at its next entry. A thread that has ended makes no entry any more.
fn step(
    cells: &Cells,
    seat: &mut Seat,
    run: &mut ThreadRun,
    next: Noted,
) -> Result<Step, AllocError>
    requires runnable { IsRunnable cells.now.code }
    requires limits { IsWithinLimits cells.now.setup }
    requires carrying { IsCarrying cells.now seat.old run.old }
    requires own { next.entry.thread ≡ (view_of seat.old).from }
    requires in_step { IsInStep (told_at seat.old) next }
    ensures comes { IfOk result (Comes cells.now seat.old seat.new run.new next) }
    ensures carrying { IsCarrying cells.now seat.new run.new }
    ensures thread { (view_of seat.new).from ≡ (view_of seat.old).from }
{
    if run.ending().is_some() {
        return Ok(Step::Departs);
    }
    prepare(run)?;
    Ok(follow(cells, seat, run, next))
}

/// A turn of a thread at its next entry, if that stands before the departure. None where memory is out, which the memory word then
/// tells the others.
pub(crate) fn try_next(
    cells: &Cells,
    seat: &mut Seat,
    run: &mut ThreadRun,
    next: Wanted,
) -> Option<Tried>
    requires runnable { IsRunnable cells.now.code }
    requires limits { IsWithinLimits cells.now.setup }
    requires carrying { IsCarrying cells.now seat.old run.old }
    requires own { next.noted.entry.thread ≡ (view_of seat.old).from }
    requires in_step { IsInStep (told_at seat.old) next.noted }
    ensures tried { IfSome result (TriedIs cells.now seat.old seat.new run.new next) }
    ensures out { result ≡ None → SawNoMemory cells.now (view_of seat.new).notes }
    ensures carrying { IsCarrying cells.now seat.new run.new }
    ensures thread { (view_of seat.new).from ≡ (view_of seat.old).from }
{
    if cells.lacks_memory(seat) {
        return None;
    }
    let bound = cells.depart(seat);
    if bound <= next.position {
        return Some(Tried {
            bound,
            step: Step::Waits,
        });
    }
    let Ok(step) = step(cells, seat, run, next.noted) else {
        cells.no_memory(seat);
        return None;
    };
    if matches!(step, Step::Departs) {
        cells.least(seat, next.position);
    }
    Some(Tried { bound, step })
}
