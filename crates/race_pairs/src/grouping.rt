// The accesses at places, put into groups.
ghost use Rattle.std.specs.Prelude.{◌≡◌, ◌<◌, ◌≤◌, ℕ, [], length, slice_get, Some, IfOk, OnOk};
ghost use Rattle.std.specs.List.Sorted.{IsPermutation};
ghost use Rattle.race_pairs.specs.declared.touch.Touch.{Touch};
ghost use Rattle.race_pairs.specs.Gains.{Gains, Below};
ghost use Rattle.race_pairs.specs.Groups.{Alike, AreSorted, IsGroup, AreGroups, StandsFrom};

use crate::alike::{alone, are_alike, guarded_at};
use crate::meeting::lock_cells;
use crate::ranks::by_group;
use crate::touch::{Group, Touch};
use facts::{AccessAt, Guarded, Summary};
use rr_base::List;
use std::alloc::{AllocError, Global};
use sync_objects::Mode;

/// Puts the places in order, and those of one group side by side.
pub(crate) fn put_in_order(
    summaries: &[Summary],
    touches: &mut Vec<Touch>,
) -> Result<(), AllocError>
    ensures same { IsPermutation touches.old.items touches.new.items }
    ensures sorted { OnOk result (AreSorted touches.new.items) }
{
    touches.sort_by(|touch, other| by_group(summaries, &touch.access, &other.access))?;
    touches.sort_by_key(|touch| touch.place)
}

/// Where those that are like the one at `from` end.
fn end_of(summaries: &[Summary], touches: &[Touch], from: usize) -> usize
    requires { from < length touches.now }
    ensures bound { (from < result) × (result ≤ length touches.now) }
    ensures alike { (k : ℕ) (v w : Touch) → from < k → k < result → slice_get touches.now from ≡ Some v → slice_get touches.now k ≡ Some w → Alike summaries.now v w }
{
    for at in from + 1..touches.len() {
        if !are_alike(summaries, &touches[from], &touches[at]) {
            return at;
        }
    }
    touches.len()
}

/// Where the accesses of a part stand.
fn places_between(
    alloc: Global,
    touches: &[Touch],
    from: usize,
    to: usize,
) -> Result<Vec<AccessAt>, AllocError>
    requires { (from ≤ to) × (to ≤ length touches.now) }
    ensures { IfOk result (λ v. Gains (Below to (StandsFrom touches.now from)) [] v.items) }
{
    let mut all = Vec::new(alloc);
    for at in from..to {
        all.push(touches[at].access.at)?;
    }
    Ok(all)
}

/// The same without repetitions side by side.
fn accesses_between(
    alloc: Global,
    touches: &[Touch],
    from: usize,
    to: usize,
) -> Result<List<AccessAt>, AllocError>
    requires { (from ≤ to) × (to ≤ length touches.now) }
    ensures { IfOk result (λ all. Gains (Below to (StandsFrom touches.now from)) [] all) }
{
    let mut all = places_between(alloc, touches, from, to)?;
    all.dedup();
    Ok(List::from_vec(all))
}

/// The group of a part.
fn group_of(
    alloc: Global,
    touches: &[Touch],
    from: usize,
    to: usize,
    guarded: &Guarded,
) -> Result<Group, AllocError>
    requires { (from < to) × (to ≤ length touches.now) }
    ensures { IfOk result (IsGroup touches.now from to guarded.now) }
{
    let accesses = accesses_between(alloc, touches, from, to)?;
    let writing = lock_cells(alloc, guarded.plus.as_slice(), Mode::Write)?;
    let reading = lock_cells(alloc, guarded.plus.as_slice(), Mode::Read)?;
    Ok(Group {
        place: touches[from].place,
        alone: alone(&touches[from].access),
        store: guarded.store,
        writing,
        reading,
        accesses,
    })
}

/// Adds the group of a part.
fn add_group(
    alloc: Global,
    summaries: &[Summary],
    touches: &[Touch],
    from: usize,
    to: usize,
    all: &mut Vec<Group>,
) -> Result<(), AllocError>
    requires bound { (from < to) × (to ≤ length touches.now) }
    requires sorted { AreSorted touches.now }
    requires alike { (k : ℕ) (v w : Touch) → from < k → k < to → slice_get touches.now from ≡ Some v → slice_get touches.now k ≡ Some w → Alike summaries.now v w }
    requires before { AreGroups summaries.now touches.now from all.old.items }
    ensures { OnOk result (AreGroups summaries.now touches.now to all.new.items) }
{
    match guarded_at(summaries, &touches[from].access) {
        Some(guarded) => {
            let group = group_of(alloc, touches, from, to, guarded)?;
            all.push(group)?;
            Ok(())
        }
        None => Ok(()),
    }
}

/// The groups of accesses that stand in order.
pub(crate) fn groups(
    alloc: Global,
    summaries: &[Summary],
    touches: &[Touch],
) -> Result<Vec<Group>, AllocError>
    requires { AreSorted touches.now }
    ensures { IfOk result (λ all. AreGroups summaries.now touches.now (length touches.now) all.items) }
{
    let mut all = Vec::new(alloc);
    let mut from = 0;
    while from < touches.len() {
        let to = end_of(summaries, touches, from);
        add_group(alloc, summaries, touches, from, to, &mut all)?;
        from = to;
    }
    Ok(all)
}
