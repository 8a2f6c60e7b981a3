// What is kept of accesses at the start of a walk.
ghost use Rattle.std.specs.Prelude.{◌≡◌, IfOk, [], replicate};

use rr_base::List;
use std::alloc::{AllocError, Global};
use thread_interpreter::Access;

/// No accesses yet, for each thread.
pub(crate) fn start_reads(alloc: Global, slots: u8) -> Result<Vec<List<Access>>, AllocError>
    ensures { IfOk result (λ it. it.items ≡ replicate slots []) }
{
    let mut reads = Vec::new(alloc);
    for _k in 0..slots {
        reads.push(List::new(alloc))?;
    }
    Ok(reads)
}
