// The locks at all points of all functions: rounds over the functions' exits, from the most that they may know downwards,
// until each round's exits are those with which it began. Before each round every exit falls to that of its function's own
// points, in an order in which called functions come first: where none calls itself, the first round is the last.
ghost use Rattle.std.specs.Prelude.{◌≡◌, ◌<◌, ◌≤◌, ℕ, true, List as Listed, length, map, slice_get, IfOk, OnOk, Some};
ghost use Rattle.flow_code.specs.Valid.{is_valid};
ghost use Rattle.flow_code.specs.declared.code.Function.{Function as Routine};
ghost use Rattle.facts.specs.Locks as locks;
ghost use Rattle.facts.specs.Locks.{IsGreatest};
ghost use Rattle.facts.specs.Paths.{argument_namings};
ghost use Rattle.facts.specs.Summaries.{AllListsKnown, AreGreatest, exits_of as exits_in};
ghost use Rattle.facts.specs.declared.locks.Held.{Held as Lock};
ghost use Rattle.facts.specs.declared.locks.RelLocks.{RelLocks as Locks};
ghost use Rattle.lockset_summary.specs.Exits.{AreEachGreatest, AreFalling, AreLocksKnown, AreSmall, IsSmallMinus, topmost_exits, all_same, weights};
ghost use Rattle.lockset_summary.specs.Guarding.{AreReady};
ghost use Rattle.lockset_summary.specs.Visits.{IsOrder};

use crate::compare::locks_same;
use crate::names::names_of;
use crate::visits::function_at;
use facts::{Held, Minus, Naming, RelLocks};
use flow_code::Code;
use lockset_flow::{FlowFacts, flow_function};
use rr_base::List;
use std::alloc::{AllocError, Global};

// The most that a function's exit may know.
fn topmost(alloc: Global, top: &List<Held>) -> Result<RelLocks, AllocError>
    ensures { IfOk result (λ l. l ≡ locks.topmost top.now) }
{
    let plus = top.copied(alloc)?;
    Ok(RelLocks {
        plus,
        minus: Minus::Listed(List::new(alloc)),
    })
}

#[tactic(auto, using(crate::proofs::Naming::map_more, crate::proofs::Naming::map_all))]
fn start(alloc: Global, tops: &[List<Held>]) -> Result<List<RelLocks>, AllocError>
    ensures { IfOk result (λ exits. exits ≡ topmost_exits tops.now) }
{
    let mut exits = List::new(alloc);
    for top in tops {
        exits.push(topmost(alloc, top)?)?;
    }
    Ok(exits)
}

// How many paths may have been given back; none where it may be any lock.
fn count(minus: &Minus) -> usize
    ensures { IsSmallMinus minus.now }
{
    match minus {
        Minus::All => 0,
        Minus::Listed(paths) => paths.len(),
    }
}

fn exit_of(alloc: Global, points: &FlowFacts) -> Result<RelLocks, AllocError>
    ensures value { IfOk result (λ exit. exit ≡ points.now.exit) }
    ensures small { IfOk result (λ exit. IsSmallMinus exit.minus) }
{
    let exit = points.exit().copied(alloc)?;
    let _count = count(&exit.minus);
    Ok(exit)
}

/// The points of a function.
pub fn facts_at(points: &[FlowFacts], f: usize) -> &FlowFacts
    requires { f < length points.now }
    ensures { slice_get points.now f ≡ Some result.now }
{
    &points[f]
}

fn exits_of(alloc: Global, points: &[FlowFacts]) -> Result<List<RelLocks>, AllocError>
    ensures value { IfOk result (λ exits. exits ≡ exits_in points.now) }
    ensures small { IfOk result (λ exits. AreSmall exits) }
{
    let mut exits = List::new(alloc);
    for k in 0..points.len() {
        exits.push(exit_of(alloc, facts_at(points, k))?)?;
    }
    Ok(exits)
}

fn exit_at(exits: &[RelLocks], k: usize) -> &RelLocks
    requires { k < length exits.now }
    ensures { slice_get exits.now k ≡ Some result.now }
{
    &exits[k]
}

// Whether these are the exits of the points.
#[tactic(auto, using(crate::proofs::Nearing::differ_there, crate::proofs::Nearing::same_on))]
fn are_exits(exits: &[RelLocks], points: &[FlowFacts]) -> bool
    requires { length exits.now ≡ length points.now }
    ensures { result ≡ all_same exits.now (exits_in points.now) }
{
    for k in 0..exits.len() {
        if !locks_same(exit_at(exits, k), facts_at(points, k).exit()) {
            return false;
        }
    }
    true
}

fn top_at(tops: &[List<Held>], f: usize) -> &List<Held>
    requires { f < length tops.now }
    ensures { slice_get tops.now f ≡ Some result.now }
{
    &tops[f]
}

// The locks at all points of the f-th function.
fn flow_at(
    alloc: Global,
    code: &Code,
    names: &[List<List<Naming>>],
    tops: &[List<Held>],
    exits: &[RelLocks],
    f: usize,
) -> Result<FlowFacts, AllocError>
    requires valid { is_valid code.now ≡ true }
    requires names { names.now ≡ map argument_namings code.now.functions }
    requires tops { AllListsKnown code.now tops.now }
    requires exits { (g : ℕ) (e : Locks) → slice_get exits.now g ≡ Some e → AreLocksKnown code.now g e }
    requires within { f < length code.now.functions }
    ensures { IfOk result (λ x. (fn : Routine) (top : Listed Lock) → slice_get code.now.functions f ≡ Some fn → slice_get tops.now f ≡ Some top → IsGreatest exits.now fn top x) }
{
    let function = code.functions.at(f);
    let top = top_at(tops, f);
    flow_function(
        alloc,
        function,
        names_of(code, names, f),
        exits,
        top.as_slice(),
    )
}

// The locks at all points of all functions, where they have these exits.
fn flow_all(
    alloc: Global,
    code: &Code,
    names: &[List<List<Naming>>],
    tops: &[List<Held>],
    exits: &[RelLocks],
) -> Result<List<FlowFacts>, AllocError>
    requires valid { is_valid code.now ≡ true }
    requires names { names.now ≡ map argument_namings code.now.functions }
    requires tops { AllListsKnown code.now tops.now }
    requires exits { (g : ℕ) (e : Locks) → slice_get exits.now g ≡ Some e → AreLocksKnown code.now g e }
    ensures { IfOk result (λ points. AreEachGreatest code.now tops.now exits.now points) }
{
    let mut points = List::new(alloc);
    for f in 0..code.functions.len() {
        points.push(flow_at(alloc, code, names, tops, exits, f)?)?;
    }
    Ok(points)
}

// The exit of the f-th function falls to that of its points.
fn lower(
    alloc: Global,
    code: &Code,
    names: &[List<List<Naming>>],
    tops: &[List<Held>],
    exits: &mut List<RelLocks>,
    f: usize,
) -> Result<(), AllocError>
    requires valid { is_valid code.now ≡ true }
    requires names { names.now ≡ map argument_namings code.now.functions }
    requires tops { AllListsKnown code.now tops.now }
    requires falling { AreFalling code.now tops.now exits.old }
    requires within { f < length code.now.functions }
    ensures falling { OnOk result (AreFalling code.now tops.now exits.new) }
    ensures lower { OnOk result (weights exits.new ≤ weights exits.old) }
{
    let points = flow_at(alloc, code, names, tops, exits.as_slice(), f)?;
    let exit = exit_of(alloc, &points)?;
    exits.set(f, exit);
    Ok(())
}

// All exits fall, in this order.
fn lower_all(
    alloc: Global,
    code: &Code,
    order: &[usize],
    names: &[List<List<Naming>>],
    tops: &[List<Held>],
    exits: &mut List<RelLocks>,
) -> Result<(), AllocError>
    requires valid { is_valid code.now ≡ true }
    requires order { IsOrder (length code.now.functions) order.now }
    requires names { names.now ≡ map argument_namings code.now.functions }
    requires tops { AllListsKnown code.now tops.now }
    requires falling { AreFalling code.now tops.now exits.old }
    ensures falling { OnOk result (AreFalling code.now tops.now exits.new) }
    ensures lower { OnOk result (weights exits.new ≤ weights exits.old) }
{
    for k in 0..order.len() {
        lower(alloc, code, names, tops, exits, function_at(code, order, k))?;
    }
    Ok(())
}

/// The locks at all points of all functions, which know these paths: the greatest solution.
pub fn all_points(
    alloc: Global,
    code: &Code,
    order: &[usize],
    names: &[List<List<Naming>>],
    tops: &[List<Held>],
) -> Result<List<FlowFacts>, AllocError>
    requires valid { is_valid code.now ≡ true }
    requires order { IsOrder (length code.now.functions) order.now }
    requires names { names.now ≡ map argument_namings code.now.functions }
    requires tops { AllListsKnown code.now tops.now }
    ensures greatest { IfOk result (λ points. AreGreatest code.now tops.now points) }
    ensures ready { IfOk result (λ points. AreReady code.now points) }
{
    let mut exits = start(alloc, tops)?;
    lower_all(alloc, code, order, names, tops, &mut exits)?;
    let mut points = flow_all(alloc, code, names, tops, exits.as_slice())?;
    while !are_exits(exits.as_slice(), points.as_slice()) {
        exits = exits_of(alloc, points.as_slice())?;
        lower_all(alloc, code, order, names, tops, &mut exits)?;
        points = flow_all(alloc, code, names, tops, exits.as_slice())?;
    }
    Ok(points)
}
