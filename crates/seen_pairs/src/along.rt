// The walk, entry by entry, with what is at work at once after each.
ghost use Rattle.std.specs.Prelude.{◌≡◌, IfOk, [], option_map, replicate};
ghost use Rattle.flow_code.specs.Settle.{IsRunnable};
ghost use Rattle.seen_pairs.specs.Pairings.{NotedIs, no_reads as spec_no_reads};

use crate::noting::{Pairs, note_change};
use core_run::{make_part, start_flows, start_words};
use flow_code::Code;
use rr_base::{Bytes, List};
use std::alloc::{AllocError, Global};
use sync_objects::{Entry, Setup};
use thread_interpreter::{Access, Formula};

// No access is asked for.
fn no_reads() -> Formula
    ensures { result ≡ spec_no_reads }
{
    Formula {
        loads: false,
        stores: false,
        thread: None,
        low: 1,
        high: 0,
        value: None,
    }
}

// No accesses yet, for each thread.
fn start_reads(alloc: Global, slots: u8) -> Result<Vec<List<Access>>, AllocError>
    ensures { IfOk result (λ it. it.items ≡ replicate slots []) }
{
    let mut reads = Vec::new(alloc);
    for _k in 0..slots {
        reads.push(List::new(alloc))?;
    }
    Ok(reads)
}

// No stack yet, for each thread.
fn start_stacks(alloc: Global, slots: u8) -> Result<List<List<u32>>, AllocError>
    ensures { IfOk result (λ it. it ≡ replicate slots []) }
{
    let mut stacks = List::new(alloc);
    for _k in 0..slots {
        stacks.push(List::new(alloc))?;
    }
    Ok(stacks)
}

/// The pairs of functions that are at work at once after some entry of the walk, each in one order at least; None where the
/// entries have no walk.
pub(crate) fn noted_along(
    alloc: Global,
    code: &Code,
    setup: &Setup,
    entries: &List<Entry>,
) -> Result<Option<Pairs>, AllocError>
    requires { IsRunnable code.now }
    ensures { IfOk result (λ noted. NotedIs code.now setup.now entries.now (option_map (λ set. set.keys) noted)) }
{
    let slots = setup.slots();
    let cells = 2 * u32::from(slots) + code.globals.len() as u32 + u32::from(slots) * setup.cells();
    let mut flows = start_flows(alloc, code, setup)?;
    let mut words = start_words(alloc, code, setup)?;
    let mut reads = start_reads(alloc, slots)?;
    let mut stacks = start_stacks(alloc, slots)?;
    let mut out = Bytes::new(alloc);
    let mut pairs = Pairs::new(alloc);
    let formula = no_reads();
    let mut at: usize = 0;
    while at < entries.len() {
        let entry = *entries.at(at);
        let made = make_part(
            code, setup, &mut flows, &mut words, &mut reads, &mut out, cells, entry, &formula,
        )?;
        if !made {
            return Ok(None);
        }
        note_change(&mut pairs, &mut stacks, &flows, entry.thread)?;
        at += 1;
    }
    Ok(Some(pairs))
}
