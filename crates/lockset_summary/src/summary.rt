// The summaries of all functions.
ghost use Rattle.std.specs.Prelude.{◌≡◌, ◌≢◌, ◌<◌, ℕ, true, length, slice_get, IfOk, Some};
ghost use Rattle.flow_code.specs.Valid.{is_valid};
ghost use Rattle.facts.specs.Summaries.{AreSummaries};
ghost use Rattle.lockset_summary.specs.Collecting.{AreCollected};

use crate::exits::{all_points, facts_at};
use crate::guarded::guarded;
use crate::names::all_names;
use crate::universe::universe;
use crate::visits::order_of;
use facts::{Guarded, Summary};
use flow_code::Code;
use lockset_flow::FlowFacts;
use rr_base::List;
use std::alloc::{AllocError, Global};
use std::mem;

// Takes the accesses of the f-th function out of its row.
fn taken(alloc: Global, rows: &mut Vec<List<Guarded>>, f: usize) -> List<Guarded>
    requires { f < length rows.old.items }
    ensures row { slice_get rows.old.items f ≡ Some result }
    ensures length { length rows.new.items ≡ length rows.old.items }
    ensures others { (g : ℕ) → g ≢ f → slice_get rows.new.items g ≡ slice_get rows.old.items g }
{
    mem::replace(&mut rows[f], List::new(alloc))
}

// Each function's exit and accesses.
fn collect(
    alloc: Global,
    points: &[FlowFacts],
    rows: &mut Vec<List<Guarded>>,
) -> Result<List<Summary>, AllocError>
    requires { length rows.old.items ≡ length points.now }
    ensures { IfOk result (λ summaries. AreCollected points.now rows.old.items (length points.now) summaries) }
{
    let mut summaries = List::new(alloc);
    for f in 0..points.len() {
        let exit = facts_at(points, f).exit().copied(alloc)?;
        let guarded = taken(alloc, rows, f);
        summaries.push(Summary { exit, guarded })?;
    }
    Ok(summaries)
}

/// The summaries of all functions of the code.
pub fn summaries(alloc: Global, code: &Code) -> Result<List<Summary>, AllocError>
    requires { is_valid code.now ≡ true }
    ensures { IfOk result (λ summaries. AreSummaries code.now summaries) }
{
    let names = all_names(alloc, code)?;
    let order = order_of(alloc, code)?;
    let order = order.as_slice();
    let tops = universe(alloc, code, order, names.as_slice())?;
    let points = all_points(alloc, code, order, names.as_slice(), tops.as_slice())?;
    let mut rows = guarded(alloc, code, order, names.as_slice(), points.as_slice())?;
    collect(alloc, points.as_slice(), &mut rows)
}
