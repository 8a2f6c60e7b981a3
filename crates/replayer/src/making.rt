// The operation of an entry, by the thread that stands at its count.
ghost use Rattle.std.specs.Prelude.{◌≡◌, ◌↔◌, IsTrue};
ghost use Rattle.flow_code.specs.Settle.{IsRunnable};
ghost use Rattle.run_theory.specs.Labels.{Close, Go, Revoke, Stop, label_of};
ghost use Rattle.sync_objects.specs.Names.{name_of};
ghost use Rattle.sync_objects.specs.Setup.{IsWithinLimits};
ghost use Rattle.sync_objects.specs.declared.object.ObjId.TheVariants as object;
ghost use Rattle.sync_objects.specs.declared.operation.OpName.TheVariants as name;
ghost use Rattle.replayer.specs.Steps.{Comes, IsSet, may_lose, step_of};

use crate::sight::{Sight, look_at};
use crate::step::Step;
use core_run::{Action, Entry, Noted, has_object};
use shared_cells::{Attempt, Cells, Seat};
use sync_objects::{ObjId, Op, OpName};
use thread_step::ThreadRun;
use weak_turns::{LockStripe, close_slot, give_up, operate, stop};

// Whether the entry is of an operation of this name.
fn has_name(entry: Entry, op: Op) -> bool
    ensures { IsTrue result ↔ (name_of op ≡ entry.op) }
{
    op.name() == entry.op
}

// Whether the entry is of an operation on this object.
fn is_at(entry: Entry, obj: ObjId) -> bool
    ensures { IsTrue result ↔ (entry.obj ≡ obj) }
{
    entry.obj == obj
}

// Whether the thread holds the stripe, and has room for a revoke.
fn may_revoke(run: &ThreadRun, lock: u16, stripe: u8) -> bool
    ensures { result ≡ may_lose run.now.flow.kept.thread lock stripe }
{
    run.holds(lock, stripe) && run.entries() < 1 << 20 && run.revokes() < 1 << 14
}

// What an attempt is to the entry with whose number it was asked for.
fn came_to(came: Attempt) -> Step
    ensures { result ≡ step_of came }
{
    match came {
        Attempt::Done { .. } => Step::Makes,
        Attempt::NotYet { .. } => Step::Waits,
    }
}

// The entry as the thread's own next operation.
fn make_own(cells: &Cells, seat: &mut Seat, run: &mut ThreadRun, next: Noted) -> Step
    requires runnable { IsRunnable cells.now.code }
    requires limits { IsWithinLimits cells.now.setup }
    requires set { IsSet cells.now seat.old run.old next }
    requires count { run.old.flow.kept.thread.count ≡ next.entry.count }
    requires label { label_of next.entry ≡ Go next.entry.thread }
    ensures { Comes cells.now seat.old seat.new run.new next result }
{
    let Action::Operate { op, obj } = run.next_action() else {
        return Step::Departs;
    };
    if !has_name(next.entry, op) {
        return Step::Departs;
    }
    if !is_at(next.entry, obj) {
        return Step::Departs;
    }
    if !has_object(cells.code(), cells.setup(), cells.cell_count(), obj) {
        return Step::Departs;
    }
    match look_at(cells, seat, op, obj, next.entry.thread, next.number) {
        Sight::Elsewhere => Step::Waits,
        Sight::Barred => Step::Departs,
        Sight::Open => came_to(operate(cells, seat, run, op, obj, Some(next.number))),
    }
}

// The entry as a revoke of this stripe.
fn make_revoke(
    cells: &Cells,
    seat: &mut Seat,
    run: &mut ThreadRun,
    next: Noted,
    lock: u16,
    stripe: u8,
) -> Step
    requires runnable { IsRunnable cells.now.code }
    requires limits { IsWithinLimits cells.now.setup }
    requires set { IsSet cells.now seat.old run.old next }
    requires count { run.old.flow.kept.thread.count ≡ next.entry.count }
    requires label { label_of next.entry ≡ Revoke next.entry.thread lock stripe }
    requires name { next.entry.op ≡ name.Revoke }
    requires object { next.entry.obj ≡ object.Weak lock stripe }
    ensures { Comes cells.now seat.old seat.new run.new next result }
{
    let obj = ObjId::Weak { lock, stripe };
    if !may_revoke(run, lock, stripe) {
        return Step::Departs;
    }
    if !has_object(cells.code(), cells.setup(), cells.cell_count(), obj) {
        return Step::Departs;
    }
    match look_at(cells, seat, Op::Revoke, obj, next.entry.thread, next.number) {
        Sight::Elsewhere => Step::Waits,
        Sight::Barred => Step::Departs,
        Sight::Open => came_to(give_up(
            cells,
            seat,
            run,
            LockStripe { lock, stripe },
            Some(next.number),
        )),
    }
}

// The entry as a stop of the thread.
fn make_stop(cells: &Cells, seat: &mut Seat, run: &mut ThreadRun, next: Noted) -> Step
    requires runnable { IsRunnable cells.now.code }
    requires limits { IsWithinLimits cells.now.setup }
    requires set { IsSet cells.now seat.old run.old next }
    requires count { run.old.flow.kept.thread.count ≡ next.entry.count }
    requires label { label_of next.entry ≡ Stop next.entry.thread }
    requires name { next.entry.op ≡ name.Stop }
    ensures { Comes cells.now seat.old seat.new run.new next result }
{
    if !is_at(next.entry, ObjId::Halt) {
        return Step::Departs;
    }
    if !run.has_begun() {
        return Step::Departs;
    }
    match look_at(
        cells,
        seat,
        Op::Stop,
        ObjId::Halt,
        next.entry.thread,
        next.number,
    ) {
        Sight::Elsewhere => Step::Waits,
        Sight::Barred => Step::Departs,
        Sight::Open => came_to(stop(cells, seat, run, Some(next.number))),
    }
}

// The entry as a close of the thread's slot.
fn make_close(cells: &Cells, seat: &mut Seat, run: &mut ThreadRun, next: Noted) -> Step
    requires runnable { IsRunnable cells.now.code }
    requires limits { IsWithinLimits cells.now.setup }
    requires set { IsSet cells.now seat.old run.old next }
    requires count { run.old.flow.kept.thread.count ≡ next.entry.count }
    requires label { label_of next.entry ≡ Close next.entry.thread }
    requires name { next.entry.op ≡ name.Close }
    ensures { Comes cells.now seat.old seat.new run.new next result }
{
    let slot = ObjId::Slot(next.entry.thread);
    if !is_at(next.entry, slot) {
        return Step::Departs;
    }
    if run.has_begun() {
        return Step::Departs;
    }
    match look_at(cells, seat, Op::Close, slot, next.entry.thread, next.number) {
        Sight::Elsewhere => Step::Waits,
        Sight::Barred => Step::Departs,
        Sight::Open => came_to(close_slot(cells, seat, run, Some(next.number))),
    }
}

/// The entry, at whose count the thread stands, is made, where its object stands at the entry's number and allows it.
pub(crate) fn make(cells: &Cells, seat: &mut Seat, run: &mut ThreadRun, next: Noted) -> Step
    requires runnable { IsRunnable cells.now.code }
    requires limits { IsWithinLimits cells.now.setup }
    requires set { IsSet cells.now seat.old run.old next }
    requires count { run.old.flow.kept.thread.count ≡ next.entry.count }
    ensures { Comes cells.now seat.old seat.new run.new next result }
{
    match next.entry.op {
        OpName::Revoke => match next.entry.obj {
            ObjId::Weak { lock, stripe } => make_revoke(cells, seat, run, next, lock, stripe),
            ObjId::Mutex(_) => make_own(cells, seat, run, next),
            ObjId::Cond(_) => make_own(cells, seat, run, next),
            ObjId::Barrier(_) => make_own(cells, seat, run, next),
            ObjId::Rw(_) => make_own(cells, seat, run, next),
            ObjId::Slot(_) => make_own(cells, seat, run, next),
            ObjId::Threads => make_own(cells, seat, run, next),
            ObjId::Halt => make_own(cells, seat, run, next),
            ObjId::Input => make_own(cells, seat, run, next),
            ObjId::Output => make_own(cells, seat, run, next),
        },
        OpName::Stop => make_stop(cells, seat, run, next),
        OpName::Close => make_close(cells, seat, run, next),
        _ => make_own(cells, seat, run, next),
    }
}
