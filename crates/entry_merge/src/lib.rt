//! The written merge of the lists of a run's entries.
//!
//! Its contract: `merge` is `written_merge`.
//! It knows nothing of what a thread computes.
#![tactic(auto)]

ghost use Rattle.std.specs.Prelude.{◌≡◌, map, position, IfOk, IfSome, MatchOption, OnOk, length, ◌<◌};
ghost use Rattle.sync_objects.specs.declared.entry.Noted.{Noted};
ghost use Rattle.run_theory.specs.Merge.{Stuck, Takes, written_merge};
ghost use Rattle.run_theory.specs.Same.{same_object};
ghost use Rattle.entry_merge.specs.Counts.{count_in, AreCounted, is_next, next_by, lists_of};

#[cfg(test)]
mod tests;

use indexmap::IndexMap;
use rr_base::List;
use std::alloc::{AllocError, Global};
use sync_objects::{Entry, Noted, ObjId};

/// How many entries of each object came before.
pub type Counts = IndexMap<ObjId, u64>;

/// How many entries of the object came before; 0 where none is counted.
pub fn count_of(counts: &Counts, obj: ObjId) -> u64
    ensures { result ≡ count_in counts.now obj }
{
    counts.get(&obj).copied().unwrap_or(0)
}

/// One more entry of the object has come. More of them than 64 bits can count don't fit into memory.
pub fn count_up(counts: &mut Counts, obj: ObjId) -> Result<(), AllocError>
    ensures { OnOk result (AreCounted counts.old obj counts.new) }
{
    let count = count_of(counts, obj).checked_add(1).ok_or(AllocError)?;
    counts.insert(obj, count)?;
    Ok(())
}

fn is_next(counts: &Counts, list: &[Noted]) -> bool
    ensures { result ≡ is_next (count_in counts.now) list.now }
{
    match list.first() {
        Some(first) => u64::from(first.number) == count_of(counts, first.entry.obj),
        None => false,
    }
}

fn next_list(counts: &Counts, lists: &List<&[Noted]>) -> Option<usize>
    ensures value { result ≡ position (λ list. is_next (count_in counts.now) list.now) lists.now }
    ensures within { IfSome result (λ k. k < length lists.now) }
{
    lists.iter().position(|list| is_next(counts, *list))
}

// Takes the next entry from its list, if there is one.
fn take_next(counts: &Counts, lists: &mut List<&[Noted]>) -> Option<Noted>
    ensures { MatchOption result (next_by (count_in counts.now) (lists_of lists.old) ≡ Stuck) (λ x. next_by (count_in counts.now) (lists_of lists.old) ≡ Takes x (lists_of lists.new)) }
{
    let Some(at) = next_list(counts, lists) else {
        return None;
    };
    let [first, more @ ..] = *lists.at(at) else {
        return None;
    };
    lists.set(at, more);
    Some(*first)
}

fn slices_of<'a>(alloc: Global, lists: &'a [List<Noted>]) -> Result<List<&'a [Noted]>, AllocError>
    ensures { IfOk result (λ slices. lists_of slices ≡ lists.now) }
{
    let mut slices = List::new(alloc);
    for list in lists {
        slices.push(list.as_slice())?;
    }
    Ok(slices)
}

/// All entries of the lists, one list a thread, in the written order: always that of the lowest thread whose next entry's
/// number is how many entries of its object were taken before. It ends where no thread has such an entry, which on the
/// lists of a run is after the last entry.
pub fn merge(alloc: Global, lists: &[List<Noted>]) -> Result<List<Entry>, AllocError>
    ensures { IfOk result (λ merged. merged ≡ map (λ (x : Noted). x.entry) (written_merge lists.now)) }
{
    let mut rest = slices_of(alloc, lists)?;
    let mut counts = IndexMap::new(alloc);
    let mut merged = List::new(alloc);
    while let Some(next) = take_next(&counts, &mut rest) {
        count_up(&mut counts, next.entry.obj)?;
        merged.push(next.entry)?;
    }
    Ok(merged)
}
