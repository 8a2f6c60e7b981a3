// Ends that come from outside: of threads when the program doesn't run any more, and of slots whose thread nobody starts.
ghost use Rattle.std.specs.Prelude.{◌≡◌, true, false};
ghost use Rattle.flow_code.specs.Next.{has_begun as has_begun_of};
ghost use Rattle.shared_cells.specs.Seats.{IsSeatOf};
ghost use Rattle.sync_objects.specs.Packing.{shown};
ghost use Rattle.sync_objects.specs.States.{is_running as is_running_of, has_live as has_live_of, is_idle as is_idle_of};
ghost use Rattle.sync_objects.specs.declared.kind.ObjKind.TheVariants as kind;
ghost use Rattle.sync_objects.specs.declared.object.ObjId.TheVariants as object;
ghost use Rattle.weak_turns.specs.Finding.{FindsEnd, Sees};
ghost use Rattle.weak_turns.specs.Turns.{number_of, thread_of};

use shared_cells::{Cells, Seat};
use sync_objects::{ObjId, state_of};

/// How a thread is ended from outside.
#[derive(Clone, Copy)]
pub(crate) enum End {
    Stop,
    Close,
}

/// Whether the program runs, as a look finds it.
fn is_running(cells: &Cells, seat: &mut Seat) -> bool
    requires seat { IsSeatOf cells.now seat.old }
    ensures seat { IsSeatOf cells.now seat.new }
    ensures sees { Sees cells.now seat.old seat.new object.Halt (λ w. is_running_of (shown kind.Halt w)) result }
{
    state_of(cells.look(seat, ObjId::Halt)) == 0
}

/// Whether a thread is live, by the word that counts the drawn ones below and the live ones above.
fn has_live(cells: &Cells, seat: &mut Seat) -> bool
    requires seat { IsSeatOf cells.now seat.old }
    ensures seat { IsSeatOf cells.now seat.new }
    ensures sees { Sees cells.now seat.old seat.new object.Threads (λ w. has_live_of (shown kind.Threads w)) result }
{
    state_of(cells.look(seat, ObjId::Threads)) >= 32
}

/// Whether nobody has started the seat's thread, nor closed its slot.
fn is_idle(cells: &Cells, seat: &mut Seat) -> bool
    requires seat { IsSeatOf cells.now seat.old }
    ensures seat { IsSeatOf cells.now seat.new }
    ensures sees { Sees cells.now seat.old seat.new (object.Slot (number_of seat.old)) (λ w. is_idle_of (shown kind.Slot w)) result }
{
    state_of(cells.look(seat, ObjId::Slot(seat.thread()))) == 0
}

/// The end that is due to a thread that hasn't begun.
fn close_due(cells: &Cells, seat: &mut Seat) -> Option<End>
    requires seat { IsSeatOf cells.now seat.old }
    requires early { has_begun_of (thread_of seat.old).phase ≡ false }
    ensures seat { IsSeatOf cells.now seat.new }
    ensures finds { FindsEnd cells.now seat.old seat.new result }
{
    if !is_idle(cells, seat) {
        return None;
    }
    if !is_running(cells, seat) {
        return Some(End::Close);
    }
    if !has_live(cells, seat) {
        return Some(End::Close);
    }
    None
}

/// The end that is due to a thread that has begun.
fn stop_due(cells: &Cells, seat: &mut Seat) -> Option<End>
    requires seat { IsSeatOf cells.now seat.old }
    requires begun { has_begun_of (thread_of seat.old).phase ≡ true }
    ensures seat { IsSeatOf cells.now seat.new }
    ensures finds { FindsEnd cells.now seat.old seat.new result }
{
    if is_running(cells, seat) {
        None
    } else {
        Some(End::Stop)
    }
}

/// The end that is due to the seat's thread.
pub(crate) fn end_due(cells: &Cells, seat: &mut Seat, has_begun: bool) -> Option<End>
    requires seat { IsSeatOf cells.now seat.old }
    requires begun { has_begun ≡ has_begun_of (thread_of seat.old).phase }
    ensures seat { IsSeatOf cells.now seat.new }
    ensures finds { FindsEnd cells.now seat.old seat.new result }
{
    if has_begun {
        stop_due(cells, seat)
    } else {
        close_due(cells, seat)
    }
}
