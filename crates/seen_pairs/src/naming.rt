// The names of functions.
ghost use Rattle.std.specs.Prelude.{◌≡◌, IfOk, map};
ghost use Rattle.seen_pairs.specs.Pairings.{names_of};
ghost use Rattle.seen_pairs.specs.Seen.{name_of as name_of_function};
ghost use Rattle.profiles.specs.Profile.{ordered as ordered_texts};

use crate::noting::Pairs;
use flow_code::Code;
use rr_base::{Bytes, List};
use std::alloc::{AllocError, Global};

// The name of a function; nothing where there is no such function.
fn name_of(code: &Code, function: u32) -> &[u8]
    ensures { result.now ≡ name_of_function code.now function }
{
    match code.functions.get(function as usize) {
        Some(it) => it.name.as_slice(),
        None => &[],
    }
}

// Two texts, the lesser one first.
fn ordered<'a>(first: &'a [u8], second: &'a [u8]) -> (&'a [u8], &'a [u8])
    ensures { (result.0.now, result.1.now) ≡ ordered_texts first.now second.now }
{
    if first.cmp(&second).is_le() {
        (first, second)
    } else {
        (second, first)
    }
}

// The names of two functions.
fn names(alloc: Global, code: &Code, first: u32, second: u32) -> Result<(Bytes, Bytes), AllocError>
    ensures { IfOk result (λ it. it ≡ names_of code.now (first, second)) }
{
    let (lesser, greater) = ordered(name_of(code, first), name_of(code, second));
    let lesser = List::from_slice(alloc, lesser)?;
    let greater = List::from_slice(alloc, greater)?;
    Ok((lesser, greater))
}

// The pairs in a slice.
fn listed(alloc: Global, pairs: Pairs) -> Result<Vec<(u32, u32)>, AllocError>
    ensures { IfOk result (λ it. it.items ≡ pairs.keys) }
{
    pairs.into_iter().collect(alloc)
}

// The names of the functions of each pair.
fn names_of_all(
    alloc: Global,
    code: &Code,
    pairs: &[(u32, u32)],
) -> Result<List<(Bytes, Bytes)>, AllocError>
    ensures { IfOk result (λ it. it ≡ map (names_of code.now) pairs.now) }
{
    let mut named = List::new(alloc);
    let mut rest = pairs;
    while let [pair, more @ ..] = rest {
        named.push(names(alloc, code, pair.0, pair.1)?)?;
        rest = more;
    }
    Ok(named)
}

/// The names of the functions of each pair.
pub(crate) fn named(
    alloc: Global,
    code: &Code,
    pairs: Pairs,
) -> Result<List<(Bytes, Bytes)>, AllocError>
    ensures { IfOk result (λ it. it ≡ map (names_of code.now) pairs.keys) }
{
    names_of_all(alloc, code, &listed(alloc, pairs)?)
}
