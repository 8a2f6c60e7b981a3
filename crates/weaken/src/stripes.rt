// The weak locks of a code, and their stripes.
ghost use Rattle.std.specs.Prelude.{◌≡◌, ◌<◌, ◌&&◌, ◌||◌, ℕ, true, false, length, Some, IfOk, slice_index_or, slice_get, if◌then◌else◌};
ghost use Rattle.facts.specs.Pairs as facts_pairs;
ghost use Rattle.facts.specs.PointsTo.{are_ascending, HasRegisters};
ghost use Rattle.weak_code.specs.WeakLocks as spec;
ghost use Rattle.weaken.specs.Marks.{Marks};
ghost use Rattle.rr_base.specs.declared.layout.Place.{Place};

use crate::access::places_of;
use crate::locks::lock_at;
use facts::PointsTo;
use flow_code::{Code, LockInfo};
use rr_base::{List, Place};
use std::alloc::{AllocError, Global};
use weak_lock_facts::{Grain, Grained};

/// Marks the lock of a place, if it has one.
fn mark(locked: &[Place], place: Place, striped: &mut Vec<bool>)
    requires { are_ascending locked.now ≡ true }
    ensures { Marks locked.now (λ q. facts_pairs.place_same q place) striped.old.items striped.new.items }
{
    if let Some(number) = lock_at(locked, place) {
        if number < striped.len() {
            striped[number] = true;
        }
    }
}

/// Marks the locks of some places.
fn mark_all(locked: &[Place], places: &[Place], striped: &mut Vec<bool>)
    requires { are_ascending locked.now ≡ true }
    ensures { Marks locked.now (λ q. spec.has_place q places.now) striped.old.items striped.new.items }
{
    for place in places {
        mark(locked, *place, striped);
    }
}

/// Marks the locks of the places of an access, if it is guarded with a loop.
fn mark_access(
    code: &Code,
    points: &PointsTo,
    locked: &[Place],
    row: &Grained,
    striped: &mut Vec<bool>,
)
    requires registers { HasRegisters code.now points.now }
    requires places { are_ascending locked.now ≡ true }
    ensures { Marks locked.now (λ q. spec.is_loop row.now.grain && spec.has_place q (facts_pairs.places_of code.now points.now row.now.access)) striped.old.items striped.new.items }
{
    if let Grain::Loop(_) = row.grain {
        mark_all(locked, places_of(code, points, row.access), striped);
    }
}

/// Whether each lock has 8 stripes.
fn are_striped(
    alloc: Global,
    code: &Code,
    points: &PointsTo,
    locked: &[Place],
    rows: &[Grained],
) -> Result<Vec<bool>, AllocError>
    requires registers { HasRegisters code.now points.now }
    requires places { are_ascending locked.now ≡ true }
    ensures len { IfOk result (λ striped. length striped.items ≡ length locked.now) }
    ensures each { IfOk result (λ striped. (n : ℕ) (p : Place) → slice_get locked.now n ≡ Some p → slice_index_or striped.items n false ≡ spec.is_striped code.now points.now rows.now p) }
{
    let mut striped = vec![in alloc; false; locked.len()]?;
    for row in rows {
        mark_access(code, points, locked, row, &mut striped);
    }
    Ok(striped)
}

fn lock_info(place: Place, is_striped: bool) -> LockInfo
    ensures { result ≡ record { site = place.site; class = place.class; stripes = if is_striped then 8 else 1 } }
{
    LockInfo {
        site: place.site,
        class: place.class,
        stripes: if is_striped { 8 } else { 1 },
    }
}

/// The weak locks of places.
pub(crate) fn locks_for(
    alloc: Global,
    code: &Code,
    points: &PointsTo,
    locked: &[Place],
    rows: &[Grained],
) -> Result<List<LockInfo>, AllocError>
    requires registers { HasRegisters code.now points.now }
    requires places { are_ascending locked.now ≡ true }
    ensures { IfOk result (λ locks. locks ≡ spec.locks_for code.now points.now rows.now locked.now) }
{
    let striped = are_striped(alloc, code, points, locked, rows)?;
    let mut locks = List::new(alloc);
    for number in 0..locked.len() {
        locks.push(lock_info(locked[number], striped[number]))?;
    }
    Ok(locks)
}
