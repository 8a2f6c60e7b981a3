// A look at the object of an entry.
ghost use Rattle.std.specs.Prelude.{◌≡◌, true};
ghost use Rattle.core_run.specs.Words.{has_object};
ghost use Rattle.flow_code.specs.Settle.{IsRunnable};
ghost use Rattle.shared_cells.specs.Seats.{IsSeatOf, view_of};
ghost use Rattle.sync_objects.specs.Names.{name_of, Fits};
ghost use Rattle.sync_objects.specs.Setup.{IsWithinLimits};
ghost use Rattle.sync_objects.specs.Sound.{IsInRange};
ghost use Rattle.replayer.specs.Steps.{Sees};

use shared_cells::{Cells, Seat};
use sync_objects::{ObjId, Op, advance, number_of};

/// How the object of an entry stands to it.
#[derive(Clone, Copy)]
pub(crate) enum Sight {
    /// The object has had another number of operations.
    Elsewhere,
    /// It has had the entry's number of them, and doesn't allow the entry.
    Barred,
    /// It has had the entry's number of them, and allows the entry.
    Open,
}

/// Whether it is an entry's turn on its object, as a look finds it.
pub(crate) fn look_at(
    cells: &Cells,
    seat: &mut Seat,
    op: Op,
    obj: ObjId,
    thread: u8,
    number: u32,
) -> Sight
    requires runnable { IsRunnable cells.now.code }
    requires limits { IsWithinLimits cells.now.setup }
    requires seat { IsSeatOf cells.now seat.old }
    requires thread { thread ≡ (view_of seat.old).from }
    requires object { has_object cells.now.code cells.now.setup obj ≡ true }
    requires range { IsInRange op }
    requires fits { Fits (name_of op) obj }
    ensures seat { IsSeatOf cells.now seat.new }
    ensures sees { Sees seat.old seat.new op obj number result }
{
    let word = cells.look(seat, obj);
    if number_of(word) != number {
        return Sight::Elsewhere;
    }
    match advance(op, thread, word) {
        Some(_) => Sight::Open,
        None => Sight::Barred,
    }
}
