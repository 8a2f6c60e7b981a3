//! Sets, as lists that ascend.
ghost use Rattle.std.specs.Prelude.{◌≡◌, ◌≤◌, Bool, true, false, length, ◌++◌, insert, IfOk, OnOk, MatchOption};
ghost use Rattle.facts.specs.Merges as merges;
ghost use Rattle.facts.specs.Sets.{Orders};
ghost use Rattle.facts.specs.Sets as sets;

use rr_base::List;
use std::alloc::{AllocError, Global};

/// What a set can have: items in an order, of which the list of a set has each once.
pub trait SetItem: Copy {
    ghost less: { Self → Self → Bool };

    ghost same: { Self → Self → Bool };

    /// Whether it comes before the other.
    fn is_less(self, other: Self) -> bool
        ensures { result ≡ less self other };

    /// Whether both are one.
    fn is_same(self, other: Self) -> bool
        ensures { result ≡ same self other };
}

/// Whether the item is among these.
pub fn has_item<T: SetItem>(items: &[T], item: T) -> bool
    ensures { result ≡ sets.has T.same item items.now }
{
    for held in items {
        if item.is_same(*held) {
            return true;
        }
    }
    false
}

// Where the item is to be put among these, unless it is there.
fn place_for<T: SetItem>(items: &[T], item: T) -> Option<usize>
    ensures { MatchOption result (sets.with T.less T.same item items.now ≡ items.now) (λ place. (place ≤ length items.now) × (sets.with T.less T.same item items.now ≡ insert items.now place item)) }
{
    let mut place = 0;
    for held in items {
        if item.is_less(*held) {
            return Some(place);
        }
        if item.is_same(*held) {
            return None;
        }
        place += 1;
    }
    Some(place)
}

/// Adds an item in its place, unless it is there.
pub fn add_item<T: SetItem>(items: &mut List<T>, item: T) -> Result<(), AllocError>
    ensures { OnOk result (items.new ≡ sets.with T.less T.same item items.old) }
{
    if let Some(place) = place_for(items.as_slice(), item) {
        items.insert(place, item)?;
    }
    Ok(())
}

// Whether the item comes before the first of the others, if there is one.
fn comes_first<T: SetItem>(item: T, others: &[T]) -> bool
    ensures { result ≡ sets.comes_first T.less item others.now }
{
    match others {
        [first, ..] => item.is_less(*first),
        [] => true,
    }
}

/// Whether the items ascend.
pub fn ascend<T: SetItem>(items: &[T]) -> bool
    ensures { result ≡ sets.are_ascending T.less items.now }
{
    let mut rest = items;
    while let [first, more @ ..] = rest {
        if !comes_first(*first, more) {
            return false;
        }
        rest = more;
    }
    true
}

// Adds those in front that come before the item.
fn push_before<T: SetItem>(merged: &mut List<T>, others: &[T], item: T) -> Result<(), AllocError>
    ensures { OnOk result (merged.new ≡ merged.old ++ merges.before_item T.less item others.now) }
{
    for other in others {
        if !other.is_less(item) {
            return Ok(());
        }
        merged.push(*other)?;
    }
    Ok(())
}

// Those from the first on that comes after the item.
fn after_item<T: SetItem>(others: &[T], item: T) -> &[T]
    ensures { result.now ≡ merges.after_item T.less T.same item others.now }
{
    let mut rest = others;
    while let [first, more @ ..] = rest {
        if !first.is_less(item) {
            return if first.is_same(item) { more } else { rest };
        }
        rest = more;
    }
    rest
}

fn push_all<T: SetItem>(merged: &mut List<T>, others: &[T]) -> Result<(), AllocError>
    ensures { OnOk result (merged.new ≡ merged.old ++ others.now) }
{
    for other in others {
        merged.push(*other)?;
    }
    Ok(())
}

/// The items and the others, where those ascend.
pub fn merged<T: SetItem>(alloc: Global, items: &[T], others: &[T]) -> Result<List<T>, AllocError>
    requires orders { Orders T.less T.same }
    requires ascending { sets.are_ascending T.less others.now ≡ true }
    ensures { IfOk result (λ merged. merged ≡ sets.union T.less T.same items.now others.now) }
{
    let mut merged = List::new(alloc);
    let mut rest = others;
    for item in items {
        push_before(&mut merged, rest, *item)?;
        merged.push(*item)?;
        rest = after_item(rest, *item);
    }
    push_all(&mut merged, rest)?;
    Ok(merged)
}

/// Adds the others, the last one first.
pub fn add_items<T: SetItem>(items: &mut List<T>, others: &[T]) -> Result<(), AllocError>
    ensures { OnOk result (items.new ≡ sets.union T.less T.same items.old others.now) }
{
    let mut left = others.len();
    while left > 0 {
        left -= 1;
        add_item(items, others[left])?;
    }
    Ok(())
}
