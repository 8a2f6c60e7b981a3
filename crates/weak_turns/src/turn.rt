// One turn of a thread that hasn't ended.
ghost use Rattle.std.specs.Prelude.{◌≡◌, ◌+◌, ◌*◌, ◌≤◌, false, length, OnOk, true};
ghost use Rattle.flow_code.specs.Constants.{constants_fit};
ghost use Rattle.flow_code.specs.Next.{has_begun, has_ended};
ghost use Rattle.flow_code.specs.Valid.{is_valid};
ghost use Rattle.sync_objects.specs.Setup.{IsWithinLimits};
ghost use Rattle.thread_step.specs.Steps.{IsReady};
ghost use Rattle.weak_turns.specs.Finding.{Advances, HasFinished, HasRested, Steps, is_stop};
ghost use Rattle.weak_turns.specs.Shown.{IsCarrying, IsSettled};

use crate::acts::act;
use crate::ends::{End, end_due};
use crate::operations::{close_slot, give_up, stop};
use crate::played::Played;
use crate::revokes::{LockStripe, revoke_due};
use shared_cells::{Cells, Seat};
use std::alloc::AllocError;
use sync_objects::{ObjId, Op};
use thread_step::ThreadRun;

/// The thread's quiet steps, and room for one step more. After an Err some of them may be made.
#[inline(always)]
pub fn prepare(run: &mut ThreadRun) -> Result<(), AllocError>
    requires open { has_ended run.old.flow.kept.thread.phase ≡ false }
    ensures rests { HasRested run.old run.new }
    ensures settled { OnOk result (IsSettled run.new) }
    ensures ready { OnOk result (IsReady run.new) }
{
    run.prepare()
}

/// An end that is due is attempted.
fn finish(cells: &Cells, seat: &mut Seat, run: &mut ThreadRun, end: End) -> Played
    requires carrying { IsCarrying cells.now seat.old run.old }
    requires room { run.old.has_entry ≡ true }
    requires begun { has_begun run.old.flow.kept.thread.phase ≡ is_stop end }
    requires open { has_ended run.old.flow.kept.thread.phase ≡ false }
    ensures carrying { IsCarrying cells.now seat.new run.new }
    ensures entries { length run.new.entries ≤ length run.old.entries + 1 }
    ensures tried { HasFinished seat.old seat.new end result }
{
    match end {
        End::Stop => {
            let came = stop(cells, seat, run, None);
            Played::Tried {
                op: Op::Stop,
                obj: ObjId::Halt,
                came,
            }
        }
        End::Close => {
            let obj = ObjId::Slot(seat.thread());
            let came = close_slot(cells, seat, run, None);
            Played::Tried {
                op: Op::Close,
                obj,
                came,
            }
        }
    }
}

/// The first of these that applies: an end from outside, a revoke, or the thread's own next action.
pub(crate) fn step(
    cells: &Cells,
    seat: &mut Seat,
    run: &mut ThreadRun,
    since: &mut [u64],
    budget: u32,
    turn: u64,
) -> Played
    requires valid { is_valid cells.now.code ≡ true }
    requires constants { constants_fit cells.now.code ≡ true }
    requires limits { IsWithinLimits cells.now.setup }
    requires carrying { IsCarrying cells.now seat.old run.old }
    requires stripes { length since.old ≡ 8 * length cells.now.code.locks }
    requires settled { IsSettled run.old }
    requires ready { IsReady run.old }
    requires open { has_ended run.old.flow.kept.thread.phase ≡ false }
    ensures carrying { IsCarrying cells.now seat.new run.new }
    ensures entries { length run.new.entries ≤ length run.old.entries + 1 }
    ensures steps { Steps cells.now seat.old seat.new since.old since.new budget turn result }
{
    match end_due(cells, seat, run.has_begun()) {
        Some(end) => finish(cells, seat, run, end),
        None => match revoke_due(cells, seat, run, since, budget, turn) {
            Some(place) => {
                let came = give_up(cells, seat, run, place, None);
                let LockStripe { lock, stripe } = place;
                Played::Tried {
                    op: Op::Revoke,
                    obj: ObjId::Weak { lock, stripe },
                    came,
                }
            }
            None => act(cells, seat, run, since, turn),
        },
    }
}

/// A turn of a thread that hasn't ended. None where the machine was seen to be out of memory, or ran out of it, which the memory word
/// then tells all others.
pub(crate) fn advance(
    cells: &Cells,
    seat: &mut Seat,
    run: &mut ThreadRun,
    since: &mut [u64],
    budget: u32,
    turn: u64,
) -> Option<Played>
    requires valid { is_valid cells.now.code ≡ true }
    requires constants { constants_fit cells.now.code ≡ true }
    requires limits { IsWithinLimits cells.now.setup }
    requires carrying { IsCarrying cells.now seat.old run.old }
    requires stripes { length since.old ≡ 8 * length cells.now.code.locks }
    requires open { has_ended run.old.flow.kept.thread.phase ≡ false }
    ensures carrying { IsCarrying cells.now seat.new run.new }
    ensures entries { length run.new.entries ≤ length run.old.entries + 1 }
    ensures advances { Advances cells.now seat.old seat.new since.old since.new budget turn result }
{
    if cells.lacks_memory(seat) {
        return None;
    }
    match prepare(run) {
        Ok(()) => Some(step(cells, seat, run, since, budget, turn)),
        Err(_) => {
            cells.no_memory(seat);
            None
        }
    }
}
