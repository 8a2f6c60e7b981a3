//! Which functions were seen at work at once: the profile of a walk.
//!
//! Its contract: `seen_pairs`: exactly their pairs, in order; none where the entries have no walk.
//! It knows nothing of files, texts of profiles.
#![tactic(auto)]

ghost use Rattle.std.specs.Prelude.{IfOk};
ghost use Rattle.flow_code.specs.Settle.{IsRunnable};
ghost use Rattle.seen_pairs.specs.Seen.{SeenIs};

mod along;
mod naming;
mod noting;

use along::noted_along;
use flow_code::Code;
use naming::named;
use profile_book::gathered;
use rr_base::{Bytes, List};
use std::alloc::{AllocError, Global};
use sync_objects::{Entry, Setup};

/// The pairs of functions, by their names, that are on two threads' stacks right after some entry of the walk: in order, each
/// once, and with the lesser name first. It is None exactly where the entries have no walk. Quiet steps after an entry
/// are still to come there, and a thread that has ended has no stack.
pub fn seen_pairs(
    alloc: Global,
    code: &Code,
    setup: &Setup,
    entries: &List<Entry>,
) -> Result<Option<List<(Bytes, Bytes)>>, AllocError>
    requires { IsRunnable code.now }
    ensures { IfOk result (SeenIs code.now setup.now entries.now) }
{
    match noted_along(alloc, code, setup, entries)? {
        Some(pairs) => Ok(Some(gathered(alloc, named(alloc, code, pairs)?)?)),
        None => Ok(None),
    }
}
