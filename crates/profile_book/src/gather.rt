// Pairs as a set.

ghost use Rattle.std.specs.Prelude.{◌≡◌, IfOk};
ghost use Rattle.std.specs.BTreeSet.{IsFromIterResult};
ghost use Rattle.profiles.specs.Profile.{pair_order};
ghost use Rattle.profile_book.specs.Listing.{IsSetOf};

use rr_base::{Bytes, List};
use std::alloc::{AllocError, Global};
use std::collections::BTreeSet;

fn set_of(alloc: Global, pairs: Vec<(Bytes, Bytes)>) -> Result<BTreeSet<(Bytes, Bytes)>, AllocError>
    ensures { IfOk result (λ set. IsFromIterResult pair_order pairs.items set) }
{
    pairs.into_iter().collect(alloc)
}

fn in_order(alloc: Global, set: BTreeSet<(Bytes, Bytes)>) -> Result<Vec<(Bytes, Bytes)>, AllocError>
    ensures { IfOk result (λ pairs. pairs.items ≡ set.keys) }
{
    set.into_iter().collect(alloc)
}

/// The pairs in ascending order, each once.
pub fn gathered(
    alloc: Global,
    pairs: List<(Bytes, Bytes)>,
) -> Result<List<(Bytes, Bytes)>, AllocError>
    ensures { IfOk result (IsSetOf pairs) }
{
    let set = set_of(alloc, pairs.into_vec())?;
    Ok(List::from_vec(in_order(alloc, set)?))
}
