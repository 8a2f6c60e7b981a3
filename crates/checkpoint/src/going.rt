// Walking a stretch of entries from a state.
ghost use Rattle.std.specs.Prelude.{◌≡◌, ◌≤◌, [], length, take, drop, replicate, IfOk, OnOk};
ghost use Rattle.flow_code.specs.Settle.{IsRunnable};
ghost use Rattle.core_run.specs.Kept.{AreSound, most_operations};
ghost use Rattle.core_run.specs.Shown.{RunAll};
ghost use Rattle.core_run.specs.Words.{start_words as start_words_of};
ghost use Rattle.checkpoint.specs.Going.{no_reads as no_reads_of, WentIs, standing, few_walked};

use crate::outcome::Went;
use core_run::{Entry, PartEnd, Setup, walk_part};
use flow_code::Code;
use rr_base::{Bytes, List};
use std::alloc::{AllocError, Global};
use thread_interpreter::{Access, Flow, Formula};

// No access is asked for.
pub(crate) fn no_reads() -> Formula
    ensures { result ≡ no_reads_of }
{
    Formula {
        loads: false,
        stores: false,
        thread: None,
        low: 1,
        high: 0,
        value: None,
    }
}

// No accesses, for each thread.
pub(crate) fn empty_reads(alloc: Global, slots: u8) -> Result<Vec<List<Access>>, AllocError>
    ensures { IfOk result (λ it. it.items ≡ replicate slots []) }
{
    let mut reads = Vec::new(alloc);
    for _k in 0..slots {
        reads.push(List::new(alloc))?;
    }
    Ok(reads)
}

// The walk of the entries from one position up to another, from the state in which the threads and words stand. No access is
// kept.
pub(crate) fn go_on(
    code: &Code,
    setup: &Setup,
    flows: &mut Vec<Flow>,
    words: &mut Vec<u64>,
    reads: &mut Vec<List<Access>>,
    out: &mut Bytes,
    entries: &List<Entry>,
    first: u32,
    last: u32,
) -> Result<Went, AllocError>
    requires runnable { IsRunnable code.now }
    requires all { RunAll code.now setup.now 0 flows.old.items }
    requires threads { length flows.old.items ≡ setup.now.slots }
    requires reads { reads.old.items ≡ replicate setup.now.slots [] }
    requires words { length words.old.items ≡ length (start_words_of code.now setup.now) }
    requires sound { AreSound code.now setup.now most_operations words.old.items }
    requires out { out.old ≡ [] }
    requires order { first ≤ last }
    requires within { last ≤ length entries.now }
    requires few { length entries.now ≤ few_walked }
    ensures threads { OnOk result (length flows.new.items ≡ setup.now.slots) }
    ensures went { IfOk result (WentIs code.now setup.now (standing flows.old.items words.old.items) first (drop first (take last entries.now)) flows.new.items words.new.items reads.new.items out.new) }
{
    let slots = setup.slots();
    let cells = 2 * u32::from(slots) + code.globals.len() as u32 + u32::from(slots) * setup.cells();
    let formula = no_reads();
    let mut at = first;
    while at < last {
        let entry = *entries.at(at as usize);
        let end = walk_part(
            code, setup, flows, words, reads, out, cells, entry, &formula,
        )?;
        match end {
            PartEnd::Made => {}
            PartEnd::Refused => return Ok(Went::Refused { at }),
            PartEnd::Outside => {
                let thread = entry.thread;
                return Ok(Went::Outside { at, thread });
            }
        }
        at += 1;
    }
    Ok(Went::On)
}
