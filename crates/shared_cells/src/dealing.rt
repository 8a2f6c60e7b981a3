// Seats that are dealt out, one for each thread, and joined again.
ghost use Rattle.std.specs.Prelude.{◌≡◌, ◌<◌, ◌≤◌, ◌-◌, [], length, IfOk, true};
ghost use Rattle.sync_objects.specs.Setup.{IsWithinLimits};
ghost use Rattle.core_run.specs.Machine.{start_told};
ghost use Rattle.shared_cells.specs.Rule.{Board, everyone};
ghost use Rattle.shared_cells.specs.Words.{first_words};
ghost use Rattle.shared_cells.specs.Seats.{AreSeats, AreAtStart};
ghost use Rattle.shared_cells.specs.Closing.{Gathers};

use crate::asked::Asked;
use crate::seat::Seat;
use crate::steps::{Part, Rule, Whole};
use crate::view::{TableInput, View};
use atomic_table::{Seat as TableSeat, Shared};
use std::alloc::{AllocError, Global};

/// Gives each thread a seat of its own, from one that carries all of them.
pub(crate) fn deal<'a>(
    alloc: Global,
    shared: &Shared<Asked, View, TableInput<'a>, Rule>,
    first: TableSeat<Asked, View>,
    slots: u8,
) -> Result<Vec<Seat>, AllocError>
    requires table { (first.table_id ≡ shared.now.table_id) × (0 < shared.now.table_id.words) }
    requires slots { (slots ≡ shared.now.key.setup.slots) × (0 < slots) }
    requires first { first.me ≡ (everyone shared.now.key, []) }
    ensures seats { IfOk result (λ it. AreSeats (record { code = shared.now.key.code; setup = shared.now.key.setup; table = shared.now.table_id }) it.items) }
    ensures start { IfOk result (λ it. AreAtStart shared.now.key.code shared.now.key.setup it.items) }
{
    let mut seats = Vec::new(alloc);
    let mut last = first;
    for k in 0..slots - 1 {
        let rest = shared.split_seat::<Part>(&mut last);
        seats.push(Seat {
            seat: last,
            thread: k,
            marks: 0,
        })?;
        last = rest;
    }
    seats.push(Seat {
        seat: last,
        thread: slots - 1,
        marks: 0,
    })?;
    Ok(seats)
}

/// All seats as one, which carries all threads.
pub(crate) fn join<'a>(
    shared: &Shared<Asked, View, TableInput<'a>, Rule>,
    mut seats: Vec<Seat>,
) -> TableSeat<Asked, View>
    requires words { 0 < shared.now.table_id.words }
    requires some { 0 < shared.now.key.setup.slots }
    requires seats { AreSeats (record { code = shared.now.key.code; setup = shared.now.key.setup; table = shared.now.table_id }) seats.items }
    ensures table { result.table_id ≡ shared.now.table_id }
    ensures view { Gathers seats.items 0 result.me.0 }
{
    let Some(last) = seats.pop() else {
        unreachable!()
    };
    let mut whole = last.seat;
    while let Some(mut seat) = seats.pop() {
        shared.join_seat::<Whole>(&mut seat.seat, whole);
        whole = seat.seat;
    }
    whole
}
