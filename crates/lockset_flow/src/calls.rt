//! What a caller knows of the arguments that it hands over.
ghost use Rattle.std.specs.Prelude.{◌≡◌, map, IfOk};
ghost use Rattle.facts.specs.Paths.{actual_of as actual_of_naming};

use facts::{LockPath, Naming};
use rr_base::List;
use std::alloc::{AllocError, Global};

// A path that leads to no cell.
const NOWHERE: LockPath = LockPath::Formal {
    index: 0,
    offset: 65_536,
};

// What is known of an argument of this name.
fn actual_of(naming: Naming) -> Option<LockPath>
    ensures { result ≡ actual_of_naming naming }
{
    match naming {
        Naming::Unknown => None,
        Naming::Nowhere => Some(NOWHERE),
        Naming::Named(path) => Some(path),
    }
}

/// What is known of the arguments of a call, by their names.
pub fn actuals(alloc: Global, names: &[Naming]) -> Result<List<Option<LockPath>>, AllocError>
    ensures { IfOk result (λ actuals. actuals ≡ map actual_of_naming names.now) }
{
    let mut actuals = List::new(alloc);
    for naming in names {
        actuals.push(actual_of(*naming))?;
    }
    Ok(actuals)
}
