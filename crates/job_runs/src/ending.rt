// An outcome where memory may run out.

ghost use Rattle.std.specs.Prelude.{◌≡◌, MatchResult, Ok};
ghost use Rattle.job_outcomes.specs.declared.stop.Stop.TheVariants as stop;

use job_outcomes::{Outcome, Stop};
use std::alloc::AllocError;

/// An outcome, or else that memory ran out.
pub fn or_stop<'a>(found: Result<Outcome<'a>, AllocError>) -> Result<Outcome<'a>, Stop>
    ensures { MatchResult result (λ o. found.entry ≡ Ok o) (λ end. end ≡ stop.OutOfMemory) }
{
    match found {
        Ok(outcome) => Ok(outcome),
        Err(error) => Err(Stop::from(error)),
    }
}
