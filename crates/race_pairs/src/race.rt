// The pairs that may race.
ghost use Rattle.std.specs.Prelude.{◌≡◌, ◌↔◌, ◌<◌, ◌≤◌, ℕ, length, [], true, slice_get, Some, IfOk, IsTrue, OnOk};
ghost use Rattle.std.specs.List.{Contains};
ghost use Rattle.facts.specs.declared.pair.Pair.{Pair};
ghost use Rattle.facts.specs.Pairs.{ArePairs, pairs_ascend};
ghost use Rattle.facts.specs.PointsTo.{HasRegisters};
ghost use Rattle.race_pairs.specs.declared.touch.Group.{Group};
ghost use Rattle.race_pairs.specs.Gains.{Gains};
ghost use Rattle.race_pairs.specs.Races as races;
ghost use Rattle.race_pairs.specs.Races.{ArePaired};
ghost use Rattle.race_pairs.specs.Groups.{AreLocksInOrder, HasLocksInOrder, HasPlacesInOrder};

use crate::access::touches;
use crate::found::{add_pair, each_once};
use crate::grouping::{groups, put_in_order};
use crate::meeting::may_race;
use crate::touch::Group;
use facts::{AccessAt, Pair, PointsTo, Summary};
use flow_code::Code;
use rr_base::{List, Place};
use std::alloc::{AllocError, Global};

/// The pair of two accesses of a place, either way round.
fn pair_of(place: Place, access: AccessAt, other: AccessAt) -> Pair
    ensures { result ≡ races.pair_of place access other }
{
    if other.cmp(&access).is_lt() {
        Pair {
            place,
            first: other,
            second: access,
        }
    } else {
        Pair {
            place,
            first: access,
            second: other,
        }
    }
}

/// Adds the pairs of an access with those from a place on.
fn add_row(
    place: Place,
    access: AccessAt,
    others: &[AccessAt],
    from: usize,
    found: &mut Vec<Pair>,
) -> Result<(), AllocError>
    requires { from ≤ length others.now }
    ensures { OnOk result (Gains (races.RowFrom place access others.now from) found.old.items found.new.items) }
{
    for at in from..others.len() {
        add_pair(found, pair_of(place, access, others[at]))?;
    }
    Ok(())
}

/// With which of the second group's accesses an access of the first begins: in the group itself with itself.
fn first_of(is_same: bool, at: usize) -> usize
    ensures { result ≡ races.first_of is_same at }
{
    if is_same { at } else { 0 }
}

/// Adds the pairs of all accesses of two groups.
fn add_all(
    group: &Group,
    other: &Group,
    is_same: bool,
    found: &mut Vec<Pair>,
) -> Result<(), AllocError>
    requires { is_same ≡ true → other.now ≡ group.now }
    ensures { OnOk result (Gains (races.IsPairOf group.now other.now) found.old.items found.new.items) }
{
    for at in 0..group.accesses.len() {
        add_row(
            group.place,
            *group.accesses.at(at),
            other.accesses.as_slice(),
            first_of(is_same, at),
            found,
        )?;
    }
    Ok(())
}

/// Whether these are the group's accesses.
fn has_accesses(group: &Group, accesses: &[AccessAt]) -> bool
    ensures { IsTrue result ↔ (group.now.accesses ≡ accesses.now) }
{
    group.accesses.as_slice() == accesses
}

/// Adds the pairs of two groups, if they may race, unless the first has been paired with such accesses; and tells with which
/// accesses it has been paired then.
fn add_racing<'a>(
    group: &Group,
    other: &'a Group,
    is_same: bool,
    paired: &'a [AccessAt],
    found: &mut Vec<Pair>,
) -> Result<&'a [AccessAt], AllocError>
    requires same { is_same ≡ true → other.now ≡ group.now }
    requires locks { AreLocksInOrder other.now }
    requires paired { ArePaired group.now paired.now found.old.items }
    ensures pairs { OnOk result (Gains (races.IsRacingPair group.now other.now) found.old.items found.new.items) }
    ensures paired { IfOk result (λ accesses. ArePaired group.now accesses.now found.new.items) }
{
    if has_accesses(other, paired) {
        return Ok(paired);
    }
    if !may_race(group, other) {
        return Ok(paired);
    }
    add_all(group, other, is_same, found)?;
    Ok(other.accesses.as_slice())
}

/// Adds the pairs of a group with those from it on.
fn add_from(groups: &[Group], from: usize, found: &mut Vec<Pair>) -> Result<(), AllocError>
    requires from { from < length groups.now }
    requires places { HasPlacesInOrder groups.now }
    requires locks { HasLocksInOrder groups.now }
    ensures { OnOk result (Gains (races.PairsFrom groups.now from) found.old.items found.new.items) }
{
    let mut paired: &[AccessAt] = &[];
    for other in from..groups.len() {
        if groups[other].place != groups[from].place {
            return Ok(());
        }
        paired = add_racing(&groups[from], &groups[other], other == from, paired, found)?;
    }
    Ok(())
}

/// The pairs of all groups, in no order.
fn pairs_of(alloc: Global, groups: &[Group]) -> Result<Vec<Pair>, AllocError>
    requires places { HasPlacesInOrder groups.now }
    requires locks { HasLocksInOrder groups.now }
    ensures { IfOk result (λ vs. Gains (races.PairsOf groups.now) [] vs.items) }
{
    let mut found = Vec::new(alloc);
    for from in 0..groups.len() {
        add_from(groups, from, &mut found)?;
    }
    Ok(found)
}

/// The pairs of accesses that may race, each once, in order: for two functions with which two threads may have begun,
/// an access of the summary of each, both at one place, one of them a store, where no global lock is held at both, for
/// writing at one of them.
/// The points-to answer must have a list for each register of the code's functions.
pub fn pairs(
    alloc: Global,
    code: &Code,
    points: &PointsTo,
    summaries: &List<Summary>,
) -> Result<List<Pair>, AllocError>
    requires { HasRegisters code.now points.now }
    ensures { IfOk result (λ vs. ArePairs code.now points.now summaries.now vs) }
{
    let known = summaries.as_slice();
    let mut all = touches(alloc, code, points, known)?;
    put_in_order(known, &mut all)?;
    let grouped = groups(alloc, known, &all)?;
    let found = pairs_of(alloc, &grouped)?;
    each_once(found)
}
