// The walk of a list of entries.
ghost use Rattle.std.specs.Prelude.{◌≡◌, ◌<◌, ◌^◌, ◌-◌, length, replicate, [], IfOk};
ghost use Rattle.flow_code.specs.Settle.{IsRunnable};
ghost use Rattle.core_run.specs.Walks.{WalkIs};

use crate::finish::{have_ended, shown};
use crate::outcome::Walk;
use crate::start::{start_flows, start_words};
use crate::walker::make_part;
use flow_code::Code;
use rr_base::{Bytes, List};
use std::alloc::{AllocError, Global};
use sync_objects::{Entry, Setup};
use thread_interpreter::{Access, Formula};

// No accesses yet, for each thread.
fn start_reads(alloc: Global, slots: u8) -> Result<Vec<List<Access>>, AllocError>
    ensures { IfOk result (λ it. it.items ≡ replicate slots []) }
{
    let mut reads = Vec::new(alloc);
    for _k in 0..slots {
        reads.push(List::new(alloc))?;
    }
    Ok(reads)
}

/// The walk of the entries: one thread goes at a time, up to each entry in turn. It is `Done` or `Trapped` with what is
/// printed, the accesses that meet the formula (at most 262,144 of each thread) and how the threads have ended, or it is
/// `Wrong` at the first entry whose part isn't allowed, or at the number of entries if some thread has not ended.
pub fn walk(
    alloc: Global,
    code: &Code,
    setup: &Setup,
    entries: &List<Entry>,
    formula: &Formula,
) -> Result<Walk, AllocError>
    requires runnable { IsRunnable code.now }
    requires few { length entries.now < 2 ^ 32 - 1 }
    ensures { IfOk result (WalkIs code.now setup.now entries.now formula.now) }
{
    let slots = setup.slots();
    let cells = 2 * u32::from(slots) + code.globals.len() as u32 + u32::from(slots) * setup.cells();
    let mut flows = start_flows(alloc, code, setup)?;
    let mut words = start_words(alloc, code, setup)?;
    let mut reads = start_reads(alloc, slots)?;
    let mut out = Bytes::new(alloc);
    let mut at: u32 = 0;
    while (at as usize) < entries.len() {
        let entry = *entries.at(at as usize);
        let made = make_part(
            code, setup, &mut flows, &mut words, &mut reads, &mut out, cells, entry, formula,
        )?;
        if !made {
            return Ok(Walk::Wrong { at });
        }
        at += 1;
    }
    if !have_ended(&flows) {
        return Ok(Walk::Wrong { at });
    }
    shown(alloc, &flows, &reads, out)
}
