// Accesses in order.
ghost use Rattle.std.specs.Prelude.{◌≡◌, ◌<◌, ◌≤◌, ◌||◌, ℕ, length, true, false, slice_index_or, IfOk, OnOk};
ghost use Rattle.facts.specs.declared.pair.AccessAt.{AccessAt as Access};
ghost use Rattle.facts.specs.Pairs as facts_pairs;
ghost use Rattle.weak_lock_facts.specs.Grains as spec;
ghost use Rattle.grain_choice.specs.Listed.{is_listed, ascend, Agree, Lists};

use facts::{AccessAt, Pair};
use std::alloc::{AllocError, Global};
use std::collections::HashSet;

fn comes_before(access: &AccessAt, other: &AccessAt) -> bool
    ensures { result ≡ facts_pairs.access_less access.now other.now }
{
    access.cmp(other).is_lt()
}

/// Where the access belongs: after all that come before it.
pub(crate) fn place_of(listed: &[AccessAt], access: &AccessAt) -> usize
    requires { ascend listed.now ≡ true }
    ensures bound { result ≤ length listed.now }
    ensures below { (k : ℕ) (d : Access) → k < result → facts_pairs.access_less (slice_index_or listed.now k d) access.now ≡ true }
    ensures above { (k : ℕ) (d : Access) → result ≤ k → k < length listed.now → facts_pairs.access_less (slice_index_or listed.now k d) access.now ≡ false }
{
    listed.partition_point(|other| comes_before(other, access))
}

/// Whether the list has the access.
pub(crate) fn has(listed: &[AccessAt], access: AccessAt) -> bool
    requires { ascend listed.now ≡ true }
    ensures { result ≡ is_listed listed.now access }
{
    let at = place_of(listed, &access);
    match listed.get(at) {
        Some(other) => *other == access,
        None => false,
    }
}

/// The functions and instructions of accesses.
type AccessSet = HashSet<(u32, u32)>;

// Lists an access, unless it is known.
fn push_new(
    listed: &mut Vec<AccessAt>,
    known: &mut AccessSet,
    access: AccessAt,
) -> Result<(), AllocError>
    requires { Agree known.old listed.old.items }
    ensures agree { OnOk result (Agree known.new listed.new.items) }
    ensures listed { OnOk result ((a : Access) → is_listed listed.new.items a ≡ (is_listed listed.old.items a || facts_pairs.access_same access a)) }
{
    if known.insert((access.function, access.instr))? {
        listed.push(access)?;
    }
    Ok(())
}

fn push_both(
    listed: &mut Vec<AccessAt>,
    known: &mut AccessSet,
    pair: &Pair,
) -> Result<(), AllocError>
    requires { Agree known.old listed.old.items }
    ensures agree { OnOk result (Agree known.new listed.new.items) }
    ensures listed { OnOk result ((a : Access) → is_listed listed.new.items a ≡ (is_listed listed.old.items a || spec.stands_in a pair.now)) }
{
    push_new(listed, known, pair.first)?;
    push_new(listed, known, pair.second)
}

// The accesses that stand in the pairs, each once.
fn both_of_all(alloc: Global, pairs: &[Pair]) -> Result<Vec<AccessAt>, AllocError>
    ensures { IfOk result (λ v. (a : Access) → is_listed v.items a ≡ spec.is_racy pairs.now a) }
{
    let mut known = HashSet::new(alloc);
    let mut listed = Vec::new(alloc);
    for pair in pairs {
        push_both(&mut listed, &mut known, pair)?;
    }
    Ok(listed)
}

/// The accesses that stand in the pairs, each once, in order.
pub(crate) fn racy(alloc: Global, pairs: &[Pair]) -> Result<Vec<AccessAt>, AllocError>
    ensures { IfOk result (λ v. Lists (spec.is_racy pairs.now) v.items) }
{
    let mut listed = both_of_all(alloc, pairs)?;
    listed.sort_unstable();
    listed.dedup();
    Ok(listed)
}
