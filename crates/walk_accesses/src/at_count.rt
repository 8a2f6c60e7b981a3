// The access that a thread makes at a count.
ghost use Rattle.std.specs.Prelude.{◌≡◌, Some, slice_get, IfOk};
ghost use Rattle.flow_code.specs.Settle.{IsRunnable};
ghost use Rattle.thread_interpreter.specs.Flows.{Running};
ghost use Rattle.walk_accesses.specs.Accesses.{HasWalk, AccessIs};
ghost use Rattle.walk_accesses.specs.Steps.{FindsAt};

use crate::alone::access_ahead;
use crate::starts::start_reads;
use core_run::{make_part, start_flows, start_words};
use flow_code::Code;
use rr_base::{Bytes, List};
use std::alloc::{AllocError, Global};
use sync_objects::{Entry, Setup};
use thread_interpreter::{Access, Flow, Formula};

// No access is asked for.
const NONE: Formula = Formula {
    loads: false,
    stores: false,
    thread: None,
    low: 0,
    high: 0,
    value: None,
};

// The access that a thread makes at this count, where it goes on alone beyond it; None where it is past it.
fn access_of(
    flows: &mut Vec<Flow>,
    words: &mut Vec<u64>,
    thread: u8,
    count: u32,
) -> Result<Option<Access>, AllocError>
    requires number { (r : Running) → slice_get flows.old.items thread ≡ Some r → r.number ≡ thread }
    ensures { (r : Running) → slice_get flows.old.items thread ≡ Some r → IfOk result (FindsAt count r words.old.items) }
{
    if usize::from(thread) >= flows.len() {
        return Ok(None);
    }
    let flow = &mut flows[usize::from(thread)];
    access_ahead(flow, words, thread, count)
}

/// The access that the thread makes in the walk of the entries after so many events of its own; None exactly where it makes
/// none there.
pub fn access_at(
    alloc: Global,
    code: &Code,
    setup: &Setup,
    entries: &List<Entry>,
    thread: u8,
    count: u32,
) -> Result<Option<Access>, AllocError>
    requires runnable { IsRunnable code.now }
    requires walked { HasWalk code.now setup.now entries.now }
    ensures { IfOk result (AccessIs code.now setup.now entries.now thread count) }
{
    let slots = setup.slots();
    let cells = 2 * u32::from(slots) + code.globals.len() as u32 + u32::from(slots) * setup.cells();
    let mut flows = start_flows(alloc, code, setup)?;
    let mut words = start_words(alloc, code, setup)?;
    let mut reads = start_reads(alloc, slots)?;
    let mut out = Bytes::new(alloc);
    let formula = NONE;
    let mut at: usize = 0;
    while at < entries.len() {
        let entry = *entries.at(at);
        if entry.thread == thread && entry.count > count {
            return access_of(&mut flows, &mut words, thread, count);
        }
        let made = make_part(
            code, setup, &mut flows, &mut words, &mut reads, &mut out, cells, entry, &formula,
        )?;
        if !made {
            return Ok(None);
        }
        at += 1;
    }
    Ok(None)
}
