// Operations that a carrier attempts.
ghost use Rattle.std.specs.Prelude.{◌≡◌, ◌<◌, true, false, length, ◌+◌, ◌≤◌};
ghost use Rattle.word_semantics.specs.Limits.{most_entries, most_revokes};
ghost use Rattle.word_semantics.specs.declared.event.Action.TheVariants as action;
ghost use Rattle.core_run.specs.Words.{has_object};
ghost use Rattle.flow_code.specs.Next.{has_begun, has_ended, holds};
ghost use Rattle.flow_code.specs.Settle.{IsRunnable};
ghost use Rattle.shared_cells.specs.Seats.{AttemptIs, IsSameSeat, IsSeatOf, view_of};
ghost use Rattle.sync_objects.specs.declared.object.ObjId.TheVariants as object;
ghost use Rattle.sync_objects.specs.declared.operation.Op.TheVariants as op;
ghost use Rattle.thread_step.specs.Steps.{IsReady, next_of};
ghost use Rattle.weak_turns.specs.Shown.{IsCarrying, IsSettled};
ghost use Rattle.weak_turns.specs.Turns.{since_after};

use crate::revokes::LockStripe;
use shared_cells::{Attempt, Cells, Seat};
use sync_objects::{ObjId, Op};
use thread_step::ThreadRun;

/// Attempts to stop the thread. Here and below, an operation that is asked for with a number is made with that number, or not at all.
pub fn stop(cells: &Cells, seat: &mut Seat, run: &mut ThreadRun, at: Option<u32>) -> Attempt
    requires carrying { IsCarrying cells.now seat.old run.old }
    requires room { run.old.has_entry ≡ true }
    requires begun { has_begun run.old.flow.kept.thread.phase ≡ true }
    requires open { has_ended run.old.flow.kept.thread.phase ≡ false }
    ensures carrying { IsCarrying cells.now seat.new run.new }
    ensures came { AttemptIs at seat.old seat.new op.Stop object.Halt result }
    ensures entries { length run.new.entries ≤ length run.old.entries + 1 }
{
    match cells.attempt_at(seat, ObjId::Halt, Op::Stop, at) {
        Attempt::Done { answer, number } => {
            run.stop(number);
            Attempt::Done { answer, number }
        }
        Attempt::NotYet { seen } => Attempt::NotYet { seen },
    }
}

/// Attempts to close the slot of a thread that hasn't begun.
pub fn close_slot(cells: &Cells, seat: &mut Seat, run: &mut ThreadRun, at: Option<u32>) -> Attempt
    requires carrying { IsCarrying cells.now seat.old run.old }
    requires room { run.old.has_entry ≡ true }
    requires early { has_begun run.old.flow.kept.thread.phase ≡ false }
    requires open { has_ended run.old.flow.kept.thread.phase ≡ false }
    ensures carrying { IsCarrying cells.now seat.new run.new }
    ensures came { AttemptIs at seat.old seat.new op.Close (object.Slot (view_of seat.old).from) result }
    ensures entries { length run.new.entries ≤ length run.old.entries + 1 }
{
    match cells.attempt_at(seat, ObjId::Slot(seat.thread()), Op::Close, at) {
        Attempt::Done { answer, number } => {
            run.close_slot(number);
            Attempt::Done { answer, number }
        }
        Attempt::NotYet { seen } => Attempt::NotYet { seen },
    }
}

/// Attempts to take a stripe from the thread.
pub fn give_up(
    cells: &Cells,
    seat: &mut Seat,
    run: &mut ThreadRun,
    place: LockStripe,
    at: Option<u32>,
) -> Attempt
    requires runnable { IsRunnable cells.now.code }
    requires carrying { IsCarrying cells.now seat.old run.old }
    requires settled { IsSettled run.old }
    requires room { run.old.has_entry ≡ true }
    requires open { has_ended run.old.flow.kept.thread.phase ≡ false }
    requires object { has_object cells.now.code cells.now.setup (object.Weak place.lock place.stripe) ≡ true }
    requires held { holds run.old.flow.kept.thread.stripes place.lock place.stripe ≡ true }
    requires entries { run.old.flow.kept.thread.entries < most_entries }
    requires revokes { run.old.flow.kept.thread.revokes < most_revokes }
    ensures carrying { IsCarrying cells.now seat.new run.new }
    ensures came { AttemptIs at seat.old seat.new op.Revoke (object.Weak place.lock place.stripe) result }
    ensures entries { length run.new.entries ≤ length run.old.entries + 1 }
{
    let LockStripe { lock, stripe } = place;
    match cells.attempt_at(seat, ObjId::Weak { lock, stripe }, Op::Revoke, at) {
        Attempt::Done { answer, number } => {
            run.give_up(lock, stripe, number);
            Attempt::Done { answer, number }
        }
        Attempt::NotYet { seen } => Attempt::NotYet { seen },
    }
}

/// Attempts the thread's own next operation.
pub fn operate(
    cells: &Cells,
    seat: &mut Seat,
    run: &mut ThreadRun,
    op: Op,
    obj: ObjId,
    at: Option<u32>,
) -> Attempt
    requires runnable { IsRunnable cells.now.code }
    requires carrying { IsCarrying cells.now seat.old run.old }
    requires settled { IsSettled run.old }
    requires ready { IsReady run.old }
    requires next { next_of run.old ≡ action.Operate op obj }
    requires object { has_object cells.now.code cells.now.setup obj ≡ true }
    ensures carrying { IsCarrying cells.now seat.new run.new }
    ensures came { AttemptIs at seat.old seat.new op obj result }
    ensures entries { length run.new.entries ≤ length run.old.entries + 1 }
{
    match cells.attempt_at(seat, obj, op, at) {
        Attempt::Done { answer, number } => {
            run.take_answer(answer, number);
            Attempt::Done { answer, number }
        }
        Attempt::NotYet { seen } => Attempt::NotYet { seen },
    }
}

/// Says whether a stripe is wanted, after an attempt to take it.
pub(crate) fn tell_want(cells: &Cells, seat: &mut Seat, op: Op, obj: ObjId, came: Attempt)
    requires seat { IsSeatOf cells.now seat.old }
    requires object { has_object cells.now.code cells.now.setup obj ≡ true }
    ensures seat { IsSeatOf cells.now seat.new }
    ensures same { IsSameSeat seat.old seat.new }
{
    if let (Op::Take | Op::Retake, ObjId::Weak { lock, stripe }) = (op, obj) {
        let wants = matches!(came, Attempt::NotYet { .. });
        cells.want(seat, lock, stripe, wants);
    }
}

/// Notes in which turn a stripe was taken.
pub(crate) fn note_take(since: &mut [u64], turn: u64, op: Op, obj: ObjId, came: Attempt)
    ensures { since.new ≡ since_after since.old turn op obj came }
{
    match (op, obj, came) {
        (Op::Take | Op::Retake, ObjId::Weak { lock, stripe }, Attempt::Done { .. }) => {
            let number = 8 * usize::from(lock) + usize::from(stripe);
            if number < since.len() {
                since[number] = turn;
            }
        }
        _ => {}
    }
}
