//! From a source to its code.
ghost use Rattle.std.specs.Prelude.{◌≡◌, ◌≤◌, ◌^◌, length, true, IfOk, IfErr};
ghost use Rattle.c_tree.specs.View.{program_of};
ghost use Rattle.c_sites.specs.Typed.{program_in};
ghost use Rattle.flow_code.specs.Settle.{IsRunnable};
ghost use Rattle.flow_code.specs.Valid as validity;
ghost use Rattle.front.specs.declared.reading.CompileFault.TheVariants as faults;
ghost use Rattle.front.specs.Plain.{plain_code, IsCodeOf};
ghost use Rattle.front.specs.Readings.{IsRefusedFor};

use crate::reading::{CompileFault, typed};
use c_elaborate::elaborate;
use c_sites::Typed;
use call_targets::resolve;
use flow_code::Code;
use flow_lower::lower;
use std::alloc::Global;

#[tactic(auto, unfolding(crate::specs::Plain::plain_code))]
fn code_of(alloc: Global, typed: Typed) -> Result<Code, CompileFault>
    ensures code { IfOk result (λ c. c ≡ plain_code (program_of (program_in typed))) }
    ensures memory { IfErr result (λ f. f ≡ faults.OutOfMemory) }
{
    let Ok(core) = elaborate(alloc, typed) else {
        return Err(CompileFault::OutOfMemory);
    };
    match resolve(alloc, core) {
        Ok(core) => lower(alloc, core).map_err(|_| CompileFault::OutOfMemory),
        Err(_) => Err(CompileFault::OutOfMemory),
    }
}

/// The code of a source, without weak locks. It is valid, so it can be run; `law_events` tells what its threads do.
///
/// # Errors
/// The first fault of the source, as `typed` tells it; `OutOfMemory` if the source or its code doesn't fit into memory.
pub fn plain(alloc: Global, text: &[u8]) -> Result<Code, CompileFault>
    requires { length text.now ≤ 2 ^ 20 }
    ensures code { IfOk result (IsCodeOf text.now) }
    ensures valid { IfOk result (λ c. validity.is_valid c ≡ true) }
    ensures runnable { IfOk result IsRunnable }
    ensures refused { IfErr result (λ f. IsRefusedFor text.now f) }
{
    match typed(alloc, text) {
        Ok(typed) => code_of(alloc, typed),
        Err(fault) => Err(fault),
    }
}
