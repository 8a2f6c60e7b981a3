// The pairs that a JSON value lists.

ghost use Rattle.std.specs.Prelude.{◌≡◌, option_map, IfOk};
ghost use Rattle.std.specs.List.{AllByRecursion};
ghost use Rattle.profiles.specs.Profile.{AreTexts, ordered as ordered_texts};
ghost use Rattle.serde_json.specs.View.{view, items_view};
ghost use Rattle.profile_book.specs.Listing as spec;
ghost use Rattle.profile_book.specs.Gives.{Gives};

use crate::fault::ProfileFault;
use rr_base::{Bytes, List};
use serde_json::Value;
use std::alloc::{AllocError, Global};

// The array of an object with the one key `pairs`.
fn array_in(value: &Value) -> Option<&Vec<Value>>
    ensures { option_map (λ v. items_view v.now.items) result ≡ spec.array_in (view value.now) }
{
    if value.as_object()?.len() != 1 {
        return None;
    }
    value.get("pairs")?.as_array()
}

// Two texts, the lesser one first.
fn ordered<'a>(f: &'a str, g: &'a str) -> (&'a str, &'a str)
    ensures { (result.0.now, result.1.now) ≡ ordered_texts f.now g.now }
{
    if f.as_bytes().cmp(&g.as_bytes()).is_le() {
        (f, g)
    } else {
        (g, f)
    }
}

// The pair of an array of exactly two texts.
fn pair_in(value: &Value) -> Option<(&str, &str)>
    ensures { option_map (λ p. (p.0.now, p.1.now)) result ≡ spec.pair_in (view value.now) }
{
    let [first, second] = value.as_array()?.as_slice() else {
        return None;
    };
    Some(ordered(first.as_str()?, second.as_str()?))
}

fn owned(alloc: Global, f: &str, g: &str) -> Result<(Bytes, Bytes), AllocError>
    ensures value { IfOk result (λ p. p ≡ (f.now, g.now)) }
    ensures texts { IfOk result AreTexts }
{
    let first = List::from_slice(alloc, f.as_bytes())?;
    let second = List::from_slice(alloc, g.as_bytes())?;
    Ok((first, second))
}

// The pairs of an array, item by item.
fn pairs_in(alloc: Global, items: &[Value]) -> Result<List<(Bytes, Bytes)>, ProfileFault>
    ensures pairs { Gives (spec.pairs_in (items_view items.now)) result }
    ensures texts { IfOk result (AllByRecursion AreTexts) }
{
    let mut found = List::new(alloc);
    for item in items {
        let Some((first, second)) = pair_in(item) else {
            return Err(ProfileFault::NotProfile);
        };
        found.push(owned(alloc, first, second)?)?;
    }
    Ok(found)
}

/// The pairs that a value lists under its only key, `pairs`, each with its lesser text first.
pub fn pairs_of(alloc: Global, value: &Value) -> Result<List<(Bytes, Bytes)>, ProfileFault>
    ensures pairs { Gives (spec.pairs_of (view value.now)) result }
    ensures texts { IfOk result (AllByRecursion AreTexts) }
{
    match array_in(value) {
        Some(items) => pairs_in(alloc, items.as_slice()),
        None => Err(ProfileFault::NotProfile),
    }
}
