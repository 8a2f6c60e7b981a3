// Pairs of which a profile has the functions.
ghost use Rattle.std.specs.Prelude.{◌≡◌, filter, List, ℕ, IfOk};
ghost use Rattle.profiles.specs.Profile as names;
ghost use Rattle.weak_lock_facts.specs.Grains as spec;

use facts::Pair;
use flow_code::Code;
use profiles::Profile;
use rr_base::Bytes;
use std::alloc::{AllocError, Global};

// The name of a function, which is empty where the code has no such function.
fn name_of(code: &Code, function: u32) -> &[u8]
    ensures { result.now ≡ spec.name_of code.now function }
{
    match code.functions.get(function as usize) {
        Some(function) => function.name.as_slice(),
        None => &[],
    }
}

fn has_pair(pairs: &[(Bytes, Bytes)], lesser: &[u8], greater: &[u8]) -> bool
    requires { names.ArePairs pairs.now }
    ensures { result ≡ spec.has_names (Profile.Pairs pairs.now) (lesser.now, greater.now) }
{
    pairs
        .binary_search_by(|pair| {
            let by_lesser = pair.0.as_slice().cmp(lesser);
            by_lesser.then(pair.1.as_slice().cmp(greater))
        })
        .is_ok()
}

fn has_either(pairs: &[(Bytes, Bytes)], name: &[u8], other: &[u8]) -> bool
    requires { names.ArePairs pairs.now }
    ensures { result ≡ spec.has_names (Profile.Pairs pairs.now) (names.ordered name.now other.now) }
{
    if name.cmp(other).is_le() {
        has_pair(pairs, name, other)
    } else {
        has_pair(pairs, other, name)
    }
}

fn has_names(profile: &Profile, name: &[u8], other: &[u8]) -> bool
    ensures { result ≡ spec.has_names profile.now (names.ordered name.now other.now) }
{
    match profile {
        Profile::All => true,
        Profile::Pairs(pairs) => has_either(pairs.as_list().as_slice(), name, other),
    }
}

fn is_seen(code: &Code, profile: &Profile, pair: &Pair) -> bool
    ensures { result ≡ spec.is_seen code.now profile.now pair.now }
{
    let first = name_of(code, pair.first.function);
    let second = name_of(code, pair.second.function);
    has_names(profile, first, second)
}

/// The pairs of which the profile has the functions of the two accesses.
pub(crate) fn seen(
    alloc: Global,
    code: &Code,
    pairs: &[Pair],
    profile: &Profile,
) -> Result<Vec<Pair>, AllocError>
    ensures { IfOk result (λ v. v.items ≡ filter (λ p. spec.is_seen code.now profile.now p) pairs.now) }
{
    pairs
        .iter()
        .copied()
        .filter(|pair| is_seen(code, profile, pair))
        .collect(alloc)
}
