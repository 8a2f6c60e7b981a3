// The chain between two points.
ghost use Rattle.std.specs.Prelude.{◌≡◌, ◌<◌, ◌^◌, ◌-◌, ◌==◌, ◌&&◌, ◌||◌, length, IfOk, MatchOption};
ghost use Rattle.flow_code.specs.Settle.{IsRunnable};
ghost use Rattle.walk_accesses.specs.Accesses.{HasWalk};
ghost use Rattle.chain_report.specs.Finds.{ConflictIs, FoundIs, IsRight, IsWrongAt};

use crate::lowest::lowest_chain;
use crate::point::{Found, Point};
use core_run::{Walk, walk};
use flow_code::Code;
use lock_sound::Weakened;
use rr_base::List;
use std::alloc::{AllocError, Global};
use sync_objects::{Entry, Setup};
use thread_interpreter::{Access, Formula};
use walk_accesses::access_at;

// Where the walk is wrong, if it is.
fn wrong_entry(
    alloc: Global,
    code: &Code,
    setup: &Setup,
    entries: &List<Entry>,
) -> Result<Option<u32>, AllocError>
    requires runnable { IsRunnable code.now }
    requires few { length entries.now < 2 ^ 32 - 1 }
    ensures { IfOk result (λ found. MatchOption found (IsRight code.now setup.now entries.now) (IsWrongAt code.now setup.now entries.now)) }
{
    let no_reads = Formula {
        loads: false,
        stores: false,
        thread: None,
        low: 1,
        high: 0,
        value: None,
    };
    match walk(alloc, code, setup, entries, &no_reads)? {
        Walk::Wrong { at } => Ok(Some(at)),
        Walk::Done { .. } | Walk::Trapped { .. } => Ok(None),
    }
}

// Whether two accesses are of one cell, and one of them is a store.
fn conflict(first: Access, second: Access) -> bool
    ensures { result ≡ ((first.cell == second.cell) && (first.store || second.store)) }
{
    first.cell == second.cell && (first.store || second.store)
}

// Whether the points name conflicting accesses of the walk.
fn are_conflicting(
    alloc: Global,
    code: &Code,
    setup: &Setup,
    entries: &List<Entry>,
    i: Point,
    j: Point,
) -> Result<bool, AllocError>
    requires runnable { IsRunnable code.now }
    requires walked { HasWalk code.now setup.now entries.now }
    ensures { IfOk result (ConflictIs code.now setup.now entries.now i j) }
{
    if i.thread == j.thread {
        return Ok(false);
    }
    let Some(first) = access_at(alloc, code, setup, entries, i.thread, i.count)? else {
        return Ok(false);
    };
    let Some(second) = access_at(alloc, code, setup, entries, j.thread, j.count)? else {
        return Ok(false);
    };
    Ok(conflict(first, second))
}

/// Why one of the two accesses that the points name came before the other in the walk of the entries: the chain of operations that
/// leads from the earlier one to the later one, each pass of it from the lowest entry that can begin it. It is `Wrong` exactly where
/// the walk is, and `NoConflict` exactly where the points aren't conflicting accesses of two threads in the walk.
pub fn find(
    alloc: Global,
    w: &Weakened,
    setup: &Setup,
    entries: &List<Entry>,
    i: Point,
    j: Point,
) -> Result<Found, AllocError>
    requires few { length entries.now < 2 ^ 32 - 1 }
    ensures { IfOk result (FoundIs w.now.weak setup.now entries.now i j) }
{
    let code = w.code();
    let _slots = setup.slots();
    if let Some(at) = wrong_entry(alloc, code, setup, entries)? {
        return Ok(Found::Wrong { at });
    }
    if !are_conflicting(alloc, code, setup, entries, i, j)? {
        return Ok(Found::NoConflict);
    }
    if let Some(passes) = lowest_chain(alloc, entries, i, j)? {
        return Ok(Found::Chain {
            first: i,
            second: j,
            passes,
        });
    }
    if let Some(passes) = lowest_chain(alloc, entries, j, i)? {
        return Ok(Found::Chain {
            first: j,
            second: i,
            passes,
        });
    }
    Ok(Found::NoConflict)
}
