// The order of guarded accesses, and when locks are the same.
ghost use Rattle.std.specs.Prelude.{◌≡◌};
ghost use Rattle.facts.specs.Sets as sets;
ghost use Rattle.facts.specs.Summaries as spec;
ghost use Rattle.lockset_summary.specs.Exits as same;

use facts::{Guarded, Minus, RelLocks, SetItem};

#[tactic(auto, using(crate::proofs::Compared::less_there, crate::proofs::Compared::other_there, crate::proofs::Compared::less_on, crate::proofs::Compared::less_short, crate::proofs::Compared::less_ends))]
fn list_less<T: SetItem>(items: &[T], others: &[T]) -> bool
    ensures { result ≡ sets.list_less T.less T.same items.now others.now }
{
    for k in 0..items.len() {
        if k >= others.len() {
            return false;
        }
        if items[k].is_less(others[k]) {
            return true;
        }
        if !items[k].is_same(others[k]) {
            return false;
        }
    }
    items.len() < others.len()
}

#[tactic(auto, using(crate::proofs::Compared::same_lengths, crate::proofs::Compared::not_same, crate::proofs::Compared::same_on, crate::proofs::Compared::same_ends))]
fn all_same<T: SetItem>(items: &[T], others: &[T]) -> bool
    ensures { result ≡ sets.all_same T.same items.now others.now }
{
    if items.len() != others.len() {
        return false;
    }
    for k in 0..items.len() {
        if !items[k].is_same(others[k]) {
            return false;
        }
    }
    true
}

fn minus_less(minus: &Minus, other: &Minus) -> bool
    ensures { result ≡ spec.minus_less minus.now other.now }
{
    let Minus::Listed(paths) = minus else {
        return false;
    };
    match other {
        Minus::All => true,
        Minus::Listed(others) => list_less(paths.as_slice(), others.as_slice()),
    }
}

fn minus_same(minus: &Minus, other: &Minus) -> bool
    ensures { result ≡ same.minus_same minus.now other.now }
{
    match (minus, other) {
        (Minus::All, Minus::All) => true,
        (Minus::Listed(paths), Minus::Listed(others)) => {
            all_same(paths.as_slice(), others.as_slice())
        }
        _ => false,
    }
}

/// Whether the locks are the same.
pub fn locks_same(locks: &RelLocks, others: &RelLocks) -> bool
    ensures { result ≡ same.locks_same locks.now others.now }
{
    all_same(locks.plus.as_slice(), others.plus.as_slice())
        && minus_same(&locks.minus, &others.minus)
}

fn held_less(a: &Guarded, b: &Guarded) -> bool
    ensures { result ≡ spec.locks_less (spec.locks_of a.now) (spec.locks_of b.now) }
{
    list_less(a.plus.as_slice(), b.plus.as_slice())
        || (all_same(a.plus.as_slice(), b.plus.as_slice()) && minus_less(&a.minus, &b.minus))
}

fn number_of(store: bool) -> u8
    ensures { result ≡ spec.number_of store }
{
    if store { 1 } else { 0 }
}

/// Whether the first access comes before the second.
pub fn guarded_less(a: &Guarded, b: &Guarded) -> bool
    ensures { result ≡ spec.guarded_less a.now b.now }
{
    if a.function != b.function {
        return a.function < b.function;
    }
    if a.instr != b.instr {
        return a.instr < b.instr;
    }
    if a.store != b.store {
        return number_of(a.store) < number_of(b.store);
    }
    held_less(a, b)
}
