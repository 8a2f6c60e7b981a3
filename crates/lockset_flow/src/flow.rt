//! The greatest solution, by rounds over the instructions.
ghost use Rattle.std.specs.Prelude.{◌≡◌, ◌<◌, true, length, List as Items, IfOk, OnOk, Some, slice_get};
ghost use Rattle.std.specs.List.{Contains};
ghost use Rattle.flow_code.specs.declared.act.Instr.{Instr as Step};
ghost use Rattle.flow_code.specs.declared.code.Function.{Function as Caller};
ghost use Rattle.facts.specs.declared.locks.RelLocks.{RelLocks as Locks};
ghost use Rattle.facts.specs.Locks.{IsGreatest, successors, returns, held_ascend, held_are_sized};
ghost use Rattle.facts.specs.Paths.{argument_namings};
ghost use Rattle.lockset_flow.specs.Flow.{FlowsWithin, AreSized, all_sized};
ghost use Rattle.lockset_flow.specs.Rounds.{Agree, Leaves, MetAt, MetAll, Relaxes, Settled};

use crate::effect::after;
use crate::flow_facts::FlowFacts;
use crate::next::{Successors, next_of};
use facts::{Held, Naming, RelLocks};
use flow_code::Function;
use rr_base::List;
use std::alloc::{AllocError, Global};

// The names of the arguments of an instruction.
fn names_at(names: &[List<Naming>], k: usize) -> &[Naming]
    requires { k < length names.now }
    ensures { slice_get names.now k ≡ Some result.now }
{
    names[k].as_slice()
}

// The way from an instruction to one that may follow it.
fn relax(
    alloc: Global,
    function: &Function,
    names: &[List<Naming>],
    exits: &[RelLocks],
    facts: &mut FlowFacts,
    k: usize,
    to: usize,
) -> Result<bool, AllocError>
    requires names { names.now ≡ argument_namings function.now }
    requires exits { all_sized exits.now ≡ true }
    requires long { length facts.old.before ≡ length function.now.instrs }
    requires from { k < length function.now.instrs }
    requires to { to < length function.now.instrs }
    requires follows { (i : Step) → slice_get function.now.instrs k ≡ Some i → Contains (successors k i.act) to }
    ensures { IfOk result (λ changed. Relaxes exits.now function.now (Agree exits.now function.now k to) facts.old facts.new changed) }
{
    let instr = function.instrs.at(k);
    let locks = after(alloc, &instr.act, names_at(names, k), exits, facts.row(k))?;
    facts.meet_at(alloc, to, &locks)
}

// The way from a return to the exit.
fn leave(alloc: Global, facts: &mut FlowFacts, k: usize) -> Result<bool, AllocError>
    requires { k < length facts.old.before }
    ensures { IfOk result (λ changed. (exits : Items Locks) (f : Caller) (i : Step) → slice_get f.instrs k ≡ Some i → returns i.act ≡ true → Relaxes exits f (Leaves k) facts.old facts.new changed) }
{
    let locks = facts.row(k).copied(alloc)?;
    facts.meet_exit(alloc, &locks)
}

// All ways from an instruction.
fn step(
    alloc: Global,
    function: &Function,
    names: &[List<Naming>],
    exits: &[RelLocks],
    facts: &mut FlowFacts,
    k: usize,
) -> Result<bool, AllocError>
    requires flows { FlowsWithin function.now }
    requires names { names.now ≡ argument_namings function.now }
    requires exits { all_sized exits.now ≡ true }
    requires long { length facts.old.before ≡ length function.now.instrs }
    requires from { k < length function.now.instrs }
    ensures { IfOk result (λ changed. Relaxes exits.now function.now (MetAt exits.now function.now k) facts.old facts.new changed) }
{
    match next_of(function.instrs.as_slice(), k) {
        Successors::One(to) => relax(alloc, function, names, exits, facts, k, to),
        Successors::Two(to, other) => {
            let mut changed = relax(alloc, function, names, exits, facts, k, to)?;
            changed |= relax(alloc, function, names, exits, facts, k, other)?;
            Ok(changed)
        }
        Successors::Exit => leave(alloc, facts, k),
    }
}

// All instructions once.
fn round(
    alloc: Global,
    function: &Function,
    names: &[List<Naming>],
    exits: &[RelLocks],
    facts: &mut FlowFacts,
) -> Result<bool, AllocError>
    requires flows { FlowsWithin function.now }
    requires names { names.now ≡ argument_namings function.now }
    requires exits { all_sized exits.now ≡ true }
    requires long { length facts.old.before ≡ length function.now.instrs }
    ensures { IfOk result (λ changed. Relaxes exits.now function.now (MetAll exits.now function.now) facts.old facts.new changed) }
{
    let mut changed = false;
    for k in 0..function.instrs.len() {
        changed |= step(alloc, function, names, exits, facts, k)?;
    }
    Ok(changed)
}

// Rounds, until one changes nothing.
fn settle(
    alloc: Global,
    function: &Function,
    names: &[List<Naming>],
    exits: &[RelLocks],
    facts: &mut FlowFacts,
) -> Result<(), AllocError>
    requires flows { FlowsWithin function.now }
    requires names { names.now ≡ argument_namings function.now }
    requires exits { all_sized exits.now ≡ true }
    requires long { length facts.old.before ≡ length function.now.instrs }
    ensures { OnOk result (Settled exits.now function.now facts.old facts.new) }
{
    let mut more = true;
    while more {
        more = round(alloc, function, names, exits, facts)?;
    }
    Ok(())
}

/// The locks at all points of a function, where these are the names of the arguments of its instructions, the functions
/// of the code have these exits, and these locks may be held: the greatest solution.
pub fn flow_function(
    alloc: Global,
    function: &Function,
    names: &[List<Naming>],
    exits: &[RelLocks],
    top: &[Held],
) -> Result<FlowFacts, AllocError>
    requires flows { FlowsWithin function.now }
    requires names { names.now ≡ argument_namings function.now }
    requires ascending { held_ascend top.now ≡ true }
    requires top { held_are_sized top.now ≡ true }
    requires exits { all_sized exits.now ≡ true }
    ensures greatest { IfOk result (λ x. IsGreatest exits.now function.now top.now x) }
    ensures sized { IfOk result (λ x. AreSized x) }
{
    let mut facts = FlowFacts::start(alloc, function.instrs.len(), top)?;
    settle(alloc, function, names, exits, &mut facts)?;
    Ok(facts)
}
