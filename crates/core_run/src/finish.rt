// What the last state of a walk comes to.
ghost use Rattle.std.specs.Prelude.{◌≡◌, ◌<◌, ◌≤◌, ◌+◌, ◌++◌, length, map, OnOk, IfOk, MatchOption, true, List as ListOf};
ghost use Rattle.std.specs.List.{flat_map};
ghost use Rattle.core_run.specs.Walks.{NoTrap, TrapOf, Trapping};
ghost use Rattle.core_run.specs.Shown.{all_ended, endings, trap_from, ShownAs};

use crate::outcome::Walk;
use rr_base::{Bytes, List, Trap};
use std::alloc::{AllocError, Global};
use thread_interpreter::{Access, Ending, Flow};

/// Whether all threads have ended.
pub fn have_ended(flows: &[Flow]) -> bool
    ensures { result ≡ all_ended flows.now }
{
    let mut rest = flows;
    while let [flow, more @ ..] = rest {
        if flow.ending().is_none() {
            return false;
        }
        rest = more;
    }
    true
}

// How the threads have ended, in their order.
pub(crate) fn endings_of(alloc: Global, flows: &[Flow]) -> Result<List<Ending>, AllocError>
    ensures { IfOk result (λ it. it ≡ endings flows.now) }
{
    let mut found = List::new(alloc);
    let mut rest = flows;
    while let [flow, more @ ..] = rest {
        if let Some(ending) = flow.ending() {
            found.push(ending)?;
        }
        rest = more;
    }
    Ok(found)
}

// The lowest thread that has trapped, and the kind and the line of its trap.
pub(crate) fn first_trap(flows: &[Flow]) -> Option<(u8, Trap, u32)>
    requires { length flows.now ≤ 16 }
    ensures { MatchOption result (trap_from 0 flows.now ≡ NoTrap) (λ it. trap_from 0 flows.now ≡ TrapOf it.0 it.1 it.2) }
{
    let mut thread = 0;
    let mut rest = flows;
    while let [flow, more @ ..] = rest {
        if let Some((kind, line)) = flow.trap() {
            return Some((thread, kind, line));
        }
        thread += 1;
        rest = more;
    }
    None
}

// All lists, one after the other.
pub(crate) fn joined(alloc: Global, lists: &[List<Access>]) -> Result<List<Access>, AllocError>
    ensures { IfOk result (λ it. it ≡ flat_map (λ xs. xs) lists.now) }
{
    let mut all = List::new(alloc);
    let mut rest = lists;
    while let [list, more @ ..] = rest {
        all.extend_from_slice(list.as_slice())?;
        rest = more;
    }
    Ok(all)
}

/// What a walk that has made all entries comes to, if all threads have ended.
pub fn shown(
    alloc: Global,
    flows: &[Flow],
    reads: &[List<Access>],
    out: Bytes,
) -> Result<Walk, AllocError>
    requires { length flows.now ≤ 16 }
    ensures { IfOk result (ShownAs flows.now reads.now out) }
{
    let ends = endings_of(alloc, flows)?;
    let reads = joined(alloc, reads)?;
    match first_trap(flows) {
        None => Ok(Walk::Done { out, reads, ends }),
        Some((thread, kind, line)) => Ok(Walk::Trapped {
            kind,
            thread,
            line,
            out,
            reads,
            ends,
        }),
    }
}
