//! Profiles that are owned.
ghost use Rattle.std.specs.Prelude.{◌≡◌, IfOk};

use profiles::{FunctionPairs, Profile};
use rr_base::{Bytes, List};
use std::alloc::{AllocError, Global};

fn copied_pair(alloc: Global, pair: &(Bytes, Bytes)) -> Result<(Bytes, Bytes), AllocError>
    ensures { IfOk result (λ copy. copy ≡ pair.now) }
{
    Ok((pair.0.copied(alloc)?, pair.1.copied(alloc)?))
}

fn copied_list(alloc: Global, pairs: &[(Bytes, Bytes)]) -> Result<List<(Bytes, Bytes)>, AllocError>
    ensures { IfOk result (λ copy. copy ≡ pairs.now) }
{
    let mut copy = List::new(alloc);
    for pair in pairs {
        copy.push(copied_pair(alloc, pair)?)?;
    }
    Ok(copy)
}

fn copied_pairs(alloc: Global, pairs: &FunctionPairs) -> Result<FunctionPairs, AllocError>
    ensures { IfOk result (λ copy. copy ≡ pairs.now) }
{
    let copy = copied_list(alloc, pairs.as_list().as_slice())?;
    Ok(FunctionPairs::new(copy))
}

/// The same profile once more, as a `Weakened` holds its own.
pub fn copied_profile(alloc: Global, profile: &Profile) -> Result<Profile, AllocError>
    ensures { IfOk result (λ copy. copy ≡ profile.now) }
{
    match profile {
        Profile::All => Ok(Profile::All),
        Profile::Pairs(pairs) => Ok(Profile::Pairs(copied_pairs(alloc, pairs)?)),
    }
}
