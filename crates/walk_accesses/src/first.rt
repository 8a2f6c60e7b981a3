// The first access of a walk that a watch asks for.
ghost use Rattle.std.specs.Prelude.{◌≡◌, ◌<◌, ◌^◌, ◌-◌, length, slice_get, IfOk};
ghost use Rattle.flow_code.specs.Settle.{IsRunnable};
ghost use Rattle.walk_accesses.specs.Accesses.{IsWatched, accesses_in, first_seen};
ghost use Rattle.walk_accesses.specs.Kept.{first_of};

use crate::seen::{Seen, Watched};
use crate::starts::start_reads;
use core_run::{Walk, make_part, start_flows, start_words, walk};
use flow_code::Code;
use rr_base::{Bytes, List};
use std::alloc::{AllocError, Global};
use sync_objects::{Entry, Setup};
use thread_interpreter::{Access, Formula};
use watch_calls::{AccessTest, Watch};

// The first access that was kept of a thread.
fn first_kept(reads: &[List<Access>], thread: u8) -> Option<Access>
    ensures { result ≡ first_of (slice_get reads.now thread) }
{
    reads.get(usize::from(thread))?.as_slice().first().copied()
}

// The first access of the walk of the entries that meets the formula, up to an entry that isn't allowed.
fn seen_along(
    alloc: Global,
    code: &Code,
    setup: &Setup,
    entries: &List<Entry>,
    formula: &Formula,
) -> Result<Seen, AllocError>
    requires runnable { IsRunnable code.now }
    requires few { length entries.now < 2 ^ 32 - 1 }
    ensures { IfOk result (λ seen. seen ≡ first_seen formula.now (accesses_in code.now setup.now entries.now)) }
{
    let slots = setup.slots();
    let cells = 2 * u32::from(slots) + code.globals.len() as u32 + u32::from(slots) * setup.cells();
    let mut flows = start_flows(alloc, code, setup)?;
    let mut words = start_words(alloc, code, setup)?;
    let mut reads = start_reads(alloc, slots)?;
    let mut out = Bytes::new(alloc);
    let mut part: u32 = 0;
    while (part as usize) < entries.len() {
        let entry = *entries.at(part as usize);
        let made = make_part(
            code, setup, &mut flows, &mut words, &mut reads, &mut out, cells, entry, formula,
        )?;
        if !made {
            return Ok(Seen::Nowhere);
        }
        if let Some(access) = first_kept(&reads, entry.thread) {
            return Ok(Seen::Hit { part, access });
        }
        part += 1;
    }
    Ok(Seen::Nowhere)
}

/// The walk of the entries by the watch's formula, and the first access of the walk that meets the formula, with the position
/// of the entry in whose part it is. Nothing is seen exactly where no access meets the formula, or where the walk is wrong.
pub fn first_in_walk<T: AccessTest + Sync>(
    alloc: Global,
    code: &Code,
    setup: &Setup,
    entries: &List<Entry>,
    watch: &Watch<T>,
) -> Result<Watched, AllocError>
    requires runnable { IsRunnable code.now }
    requires few { length entries.now < 2 ^ 32 - 1 }
    ensures { IfOk result (IsWatched code.now setup.now entries.now watch.now) }
{
    let formula = watch.formula();
    let walk = walk(alloc, code, setup, entries, &formula)?;
    let seen = match &walk {
        Walk::Wrong { .. } => Seen::Nowhere,
        Walk::Done { .. } | Walk::Trapped { .. } => seen_along(
            alloc, code, setup, entries, &formula,
        )?,
    };
    Ok(Watched { seen, walk })
}
