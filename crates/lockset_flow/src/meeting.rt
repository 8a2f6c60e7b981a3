//! Meets: what two sets of locks both know.
ghost use Rattle.std.specs.Prelude.{◌≡◌, ◌<◌, ◌≤◌, true, false, length, IfOk, OnOk};
ghost use Rattle.std.specs.List.{filter, list_all};
ghost use Rattle.facts.specs.Locks.{has, has_held, held_ascend, both};
ghost use Rattle.lockset_flow.specs.Meeting.{from_item, begins_with_item};
ghost use Rattle.lockset_flow.specs.Rounds.{meet_of, minus_weight, weight, grows as grows_of};

use facts::{Held, LockPath, Minus, RelLocks, SetItem, ascend, has_item};
use rr_base::List;
use std::alloc::{AllocError, Global};

// The items from the first on that doesn't come before this one.
fn from<'a, T: SetItem>(items: &'a [T], item: T) -> &'a [T]
    ensures { result.now ≡ from_item T.less item items.now }
{
    let mut rest = items;
    while let [first, more @ ..] = rest {
        if !first.is_less(item) {
            return rest;
        }
        rest = more;
    }
    rest
}

fn begins_with<T: SetItem>(items: &[T], item: T) -> bool
    ensures { result ≡ begins_with_item T.same item items.now }
{
    match items {
        [first, ..] => item.is_same(*first),
        [] => false,
    }
}

// The locks that the others have too, where both ascend, by one walk through both.
fn kept_in_order(alloc: Global, plus: &[Held], others: &[Held]) -> Result<List<Held>, AllocError>
    requires plus { held_ascend plus.now ≡ true }
    requires others { held_ascend others.now ≡ true }
    ensures { IfOk result (λ kept. kept ≡ filter (λ h. has_held h others.now) plus.now) }
{
    let mut kept = List::new(alloc);
    let mut rest = others;
    for held in plus {
        rest = from(rest, *held);
        if begins_with(rest, *held) {
            kept.push(*held)?;
        }
    }
    Ok(kept)
}

// The locks that the others have too. The analyses' locks ascend; any others are looked up one by one.
fn kept(alloc: Global, plus: &[Held], others: &[Held]) -> Result<List<Held>, AllocError>
    ensures { IfOk result (λ kept. kept ≡ filter (λ h. has_held h others.now) plus.now) }
{
    if ascend(plus) && ascend(others) {
        return kept_in_order(alloc, plus, others);
    }
    let kept: Vec<Held> = plus
        .iter()
        .copied()
        .filter(|held| has_item(others, *held))
        .collect(alloc)?;
    Ok(List::from_vec(kept))
}

// Keeps the locks that the others have too, and tells whether one went.
fn keep(alloc: Global, plus: &mut List<Held>, others: &[Held]) -> Result<bool, AllocError>
    ensures value { OnOk result (plus.new ≡ filter (λ h. has_held h others.now) plus.old) }
    ensures same { IfOk result (λ went. went ≡ false → plus.new ≡ plus.old) }
    ensures falls { IfOk result (λ went. went ≡ true → length plus.new < length plus.old) }
{
    let kept = kept(alloc, plus.as_slice(), others)?;
    let went = kept.len() < plus.len();
    *plus = kept;
    Ok(went)
}

// Whether it is seen, by one walk through both, that the others have all of the paths. Where both ascend it is seen.
fn are_among(paths: &[LockPath], others: &[LockPath]) -> bool
    ensures { result ≡ true → list_all (λ p. has p others.now) paths.now ≡ true }
{
    let mut rest = others;
    for path in paths {
        rest = from(rest, *path);
        if !begins_with(rest, *path) {
            return false;
        }
    }
    true
}

// Whether it is seen, without a list of both, that the other has no locks beside those of the first.
fn adds_nothing(minus: &Minus, other: &Minus) -> bool
    ensures { result ≡ true → both minus.now other.now ≡ minus.now }
{
    let Minus::Listed(paths) = minus else {
        return false;
    };
    let Minus::Listed(others) = other else {
        return false;
    };
    if !are_among(others.as_slice(), paths.as_slice()) {
        return false;
    }
    ascend(paths.as_slice())
}

// Whether the second has more paths, or any.
fn grows(minus: &Minus, joined: &Minus) -> bool
    ensures value { result ≡ grows_of minus.now joined.now }
    ensures falls { result ≡ true → minus_weight joined.now < minus_weight minus.now }
{
    let Minus::Listed(paths) = minus else {
        return false;
    };
    let Minus::Listed(more) = joined else {
        return true;
    };
    paths.len() < more.len()
}

// Adds the locks of the other, and tells whether one came.
fn join(alloc: Global, minus: &mut Minus, other: &Minus) -> Result<bool, AllocError>
    ensures value { OnOk result (minus.new ≡ both minus.old other.now) }
    ensures same { IfOk result (λ came. came ≡ false → minus.new ≡ minus.old) }
    ensures falls { IfOk result (λ came. came ≡ true → minus_weight minus.new < minus_weight minus.old) }
{
    if adds_nothing(minus, other) {
        return Ok(false);
    }
    let joined = minus.joined(alloc, other)?;
    let came = grows(minus, &joined);
    *minus = joined;
    Ok(came)
}

/// Keeps what the other knows too, and tells whether that is less than before.
pub fn meet(alloc: Global, locks: &mut RelLocks, other: &RelLocks) -> Result<bool, AllocError>
    ensures value { OnOk result (locks.new ≡ meet_of locks.old other.now) }
    ensures same { IfOk result (λ changed. changed ≡ false → locks.new ≡ locks.old) }
    ensures falls { IfOk result (λ changed. changed ≡ true → weight locks.new < weight locks.old) }
{
    let went = keep(alloc, &mut locks.plus, other.plus.as_slice())?;
    let came = join(alloc, &mut locks.minus, &other.minus)?;
    Ok(went || came)
}
