// Weak locks: which places have one, and sets of their numbers.
ghost use Rattle.std.specs.Prelude.{◌≡◌, ◌<◌, ◌≤◌, ◌↔◌, ℕ, true, false, [], length, Some, slice_get, slice_index_or, IfOk, OnOk, IsTrue};
ghost use Rattle.flow_code.specs.Regions.{ascend};
ghost use Rattle.facts.specs.PointsTo.{are_ascending, is_before};
ghost use Rattle.facts.specs.Pairs.{pairs_ascend};
ghost use Rattle.weak_code.specs.WeakLocks as spec;
ghost use Rattle.weak_code.specs.Stretches.{with_all, all_locks as all_locks_of};
ghost use Rattle.rr_base.specs.declared.layout.Place.{Place};

use facts::Pair;
use rr_base::{List, Place};
use std::alloc::{AllocError, Global};
use weak_code::RacyAccess;

fn is_again(pair: &Pair, more: &[Pair]) -> bool
    ensures { result ≡ spec.comes_again pair.now.place more.now }
{
    match more {
        [next, ..] => pair.place == next.place,
        [] => false,
    }
}

/// The places of the pairs, each once.
pub(crate) fn places_in(alloc: Global, pairs: &[Pair]) -> Result<List<Place>, AllocError>
    ensures { IfOk result (λ ps. ps ≡ spec.places_in pairs.now) }
{
    let mut places = List::new(alloc);
    let mut rest = pairs;
    while let [pair, more @ ..] = rest {
        if !is_again(pair, more) {
            places.push(pair.place)?;
        }
        rest = more;
    }
    Ok(places)
}

/// How many of the places come before this one.
fn place_in(locked: &[Place], place: Place) -> usize
    requires { are_ascending locked.now ≡ true }
    ensures bound { result ≤ length locked.now }
    ensures below { (k : ℕ) (d : Place) → k < result → is_before (slice_index_or locked.now k d) place ≡ true }
    ensures above { (k : ℕ) (d : Place) → result ≤ k → k < length locked.now → is_before (slice_index_or locked.now k d) place ≡ false }
{
    locked.partition_point(|other| *other < place)
}

fn stands_at(locked: &[Place], at: usize, place: Place) -> bool
    ensures { IsTrue result ↔ (slice_get locked.now at ≡ Some place) }
{
    match locked.get(at) {
        Some(other) => *other == place,
        None => false,
    }
}

/// The number of the lock that stands for a place.
pub(crate) fn lock_at(locked: &[Place], place: Place) -> Option<usize>
    requires { are_ascending locked.now ≡ true }
    ensures { result ≡ spec.lock_at locked.now place }
{
    let at = place_in(locked, place);
    if stands_at(locked, at, place) {
        Some(at)
    } else {
        None
    }
}

/// How many of the numbers are less than this one.
fn number_in(found: &[u16], number: u16) -> usize
    requires { ascend found.now ≡ true }
    ensures bound { result ≤ length found.now }
    ensures below { (k : ℕ) → k < result → slice_index_or found.now k 0 < number }
    ensures above { (k : ℕ) → result ≤ k → k < length found.now → number ≤ slice_index_or found.now k 0 }
{
    found.partition_point(|other| *other < number)
}

fn has_number_at(found: &[u16], at: usize, number: u16) -> bool
    ensures { IsTrue result ↔ (slice_get found.now at ≡ Some number) }
{
    match found.get(at) {
        Some(other) => *other == number,
        None => false,
    }
}

/// Puts a number in its place among those that ascend, if it isn't there.
fn put_number(found: &mut List<u16>, number: u16) -> Result<(), AllocError>
    requires { ascend found.old ≡ true }
    ensures ascending { ascend found.new ≡ true }
    ensures value { OnOk result (found.new ≡ spec.with_number number found.old) }
{
    let at = number_in(found.as_slice(), number);
    if has_number_at(found.as_slice(), at, number) {
        return Ok(());
    }
    found.insert(at, number)
}

/// Puts the number of the lock of a place, if it has one. There are fewer than 2^16 places with a lock.
fn put_lock(found: &mut List<u16>, locked: &[Place], place: Place) -> Result<(), AllocError>
    requires places { are_ascending locked.now ≡ true }
    requires ascending { ascend found.old ≡ true }
    ensures ascending { ascend found.new ≡ true }
    ensures value { OnOk result (found.new ≡ spec.with_some (spec.lock_at locked.now place) found.old) }
{
    match lock_at(locked, place) {
        Some(number) => {
            let number = u16::try_from(number).map_err(|_| AllocError)?;
            put_number(found, number)
        }
        None => Ok(()),
    }
}

/// The locks of some places.
pub(crate) fn locks_of(
    alloc: Global,
    locked: &[Place],
    places: &[Place],
) -> Result<List<u16>, AllocError>
    requires { are_ascending locked.now ≡ true }
    ensures ascending { IfOk result (λ locks. ascend locks ≡ true) }
    ensures value { IfOk result (λ locks. locks ≡ spec.locks_of locked.now places.now) }
{
    let mut found = List::new(alloc);
    for place in places {
        put_lock(&mut found, locked, *place)?;
    }
    Ok(found)
}

/// Puts more numbers among those that ascend.
pub(crate) fn put_all(found: &mut List<u16>, more: &[u16]) -> Result<(), AllocError>
    requires { ascend found.old ≡ true }
    ensures ascending { ascend found.new ≡ true }
    ensures value { OnOk result (found.new ≡ with_all found.old more.now) }
{
    for number in more {
        put_number(found, *number)?;
    }
    Ok(())
}
