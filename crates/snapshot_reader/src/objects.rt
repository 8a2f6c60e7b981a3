// The lines of objects.
ghost use Rattle.std.specs.Prelude.{◌≡◌, ◌≤◌, ◌<◌, None, length};
ghost use Rattle.core_run.specs.Words.{cells_of};
ghost use Rattle.flow_code.specs.Valid.{most_locks};
ghost use Rattle.snapshots.specs.Conditions as conditions;
ghost use Rattle.snapshot_reader.specs.Misfits.{Misfits};
ghost use Rattle.sync_objects.specs.Words.{word_of as word_of_object};

use crate::order::is_after;
use crate::states::number_fits;
use core_run::has_object;
use flow_code::Code;
use sync_objects::{ObjId, Setup, start_word};

// The place of an object in their order, for so many cells and locks.
fn rank(cells: u32, locks: u16, object: ObjId) -> u64
    ensures { result ≡ conditions.rank cells locks object }
{
    let cells = u64::from(cells);
    let locks = u64::from(locks);
    match object {
        ObjId::Mutex(cell) => u64::from(cell),
        ObjId::Cond(cell) => cells + u64::from(cell),
        ObjId::Barrier(cell) => 2 * cells + u64::from(cell),
        ObjId::Weak { lock, stripe } => 3 * cells + 8 * u64::from(lock) + u64::from(stripe),
        ObjId::Slot(slot) => 3 * cells + 8 * locks + u64::from(slot),
        ObjId::Threads => 3 * cells + 8 * locks + 16,
        ObjId::Halt => 3 * cells + 8 * locks + 17,
        ObjId::Input => 3 * cells + 8 * locks + 18,
        ObjId::Output => 3 * cells + 8 * locks + 19,
        ObjId::Rw(cell) => 3 * cells + 8 * locks + 20 + u64::from(cell),
    }
}

// The rank of an object of the machine.
fn rank_in(code: &Code, cells: u32, object: ObjId) -> u64
    requires locks { length code.now.locks ≤ most_locks }
    ensures { result ≡ conditions.rank cells (length code.now.locks) object }
{
    rank(cells, code.locks.len() as u16, object)
}

// An object's word after so many operations.
fn word_of(operations: u32, state: u32) -> u64
    ensures { result ≡ word_of_object operations state }
{
    (u64::from(operations) << 32) + u64::from(state)
}

fn object_fits(
    code: &Code,
    setup: &Setup,
    cells: u32,
    before: Option<u64>,
    listed: &(ObjId, u32, u32),
) -> bool
    requires cells { cells ≡ cells_of code.now setup.now }
    requires locks { length code.now.locks ≤ most_locks }
    ensures { result ≡ conditions.object_fits code.now setup.now before listed.now }
{
    let (object, operations, state) = *listed;
    has_object(code, setup, cells, object)
        && is_after(before, rank_in(code, cells, object))
        && operations <= 33_554_432
        && number_fits(code, setup, operations, object.kind(), state)
        && word_of(operations, state) != start_word(object)
}

/// The line of the first object that isn't as it must be.
pub fn misfit_object(
    code: &Code,
    setup: &Setup,
    cells: u32,
    first: u32,
    listed: &[(ObjId, u32, u32)],
) -> Option<u32>
    requires cells { cells ≡ cells_of code.now setup.now }
    requires locks { length code.now.locks ≤ most_locks }
    ensures { Misfits (conditions.objects_judged code.now setup.now None listed.now) first result }
{
    let mut line = first;
    let mut before = None;
    let mut rest = listed;
    while let [object, more @ ..] = rest {
        if !object_fits(code, setup, cells, before, object) {
            return Some(line);
        }
        before = Some(rank_in(code, cells, object.0));
        line = line.saturating_add(1);
        rest = more;
    }
    None
}
