//! How functions name the locks to which the arguments of their calls point.
ghost use Rattle.std.specs.Prelude.{◌≡◌, ◌<◌, ◌&&◌, ◌==◌, ℕ, true, false, replicate, not, length, map, IfOk, Some, slice_get, slice_index_or};
ghost use Rattle.facts.specs.Blocks as blocks;
ghost use Rattle.facts.specs.Paths as spec;
ghost use Rattle.facts.specs.Carried.{AreFixed, known_in};

use crate::blocks::{assigned, block_starts};
use crate::known::{Reaches, entered, known, naming_of, pass};
use crate::locks::Naming;
use crate::moves::amounts;
use flow_code::{Act, Function};
use rr_base::List;
use std::alloc::{AllocError, Global};
use std::collections::HashMap;

// The register isn't one that keeps its value, if it is a formal.
fn mark(fixed: &mut Vec<bool>, register: u32)
    ensures length { length fixed.new.items ≡ length fixed.old.items }
    ensures each { (k : ℕ) → k < length fixed.old.items → slice_index_or fixed.new.items k false ≡ (slice_index_or fixed.old.items k false && not (register == k)) }
{
    let register = register as usize;
    if register < fixed.len() {
        fixed[register] = false;
    }
}

// The register that the instruction assigns doesn't keep its value.
fn mark_assigned(fixed: &mut Vec<bool>, act: &Act)
    ensures length { length fixed.new.items ≡ length fixed.old.items }
    ensures each { (k : ℕ) → k < length fixed.old.items → slice_index_or fixed.new.items k false ≡ (slice_index_or fixed.old.items k false && not (blocks.assigns k (Some act.now))) }
{
    if let Some(register) = assigned(act) {
        mark(fixed, register);
    }
}

// As many times true.
fn all_true(alloc: Global, count: u32) -> Result<Vec<bool>, AllocError>
    ensures { IfOk result (λ v. v.items ≡ replicate count true) }
{
    let mut all = Vec::new(alloc);
    for _k in 0..count {
        all.push(true)?;
    }
    Ok(all)
}

// Whether each formal is never assigned.
fn fixed_formals(alloc: Global, function: &Function) -> Result<Vec<bool>, AllocError>
    ensures { IfOk result (λ fixed. AreFixed function.now fixed.items) }
{
    let mut fixed = all_true(alloc, function.formals)?;
    for instr in function.instrs.as_slice() {
        mark_assigned(&mut fixed, &instr.act);
    }
    Ok(fixed)
}

// How the function names what the registers point to, where so much is known of them.
fn namings(
    alloc: Global,
    held: &Reaches,
    fixed: &[bool],
    registers: &[u32],
) -> Result<List<Naming>, AllocError>
    ensures { IfOk result (λ namings. namings ≡ map (λ r. spec.naming_of (known_in held.now fixed.now r)) registers.now) }
{
    let mut namings = List::new(alloc);
    for register in registers {
        namings.push(naming_of(known(held, fixed, *register)))?;
    }
    Ok(namings)
}

// How the function names what the arguments of an instruction point to, where so much is known of them.
fn names_of(
    alloc: Global,
    held: &Reaches,
    fixed: &[bool],
    act: &Act,
) -> Result<List<Naming>, AllocError>
    ensures { IfOk result (λ namings. namings ≡ map (λ r. spec.naming_of (known_in held.now fixed.now r)) (spec.arguments_of act.now)) }
{
    match act {
        Act::Call { arguments, .. } | Act::Library { arguments, .. } => {
            namings(alloc, held, fixed, arguments.as_slice())
        }
        _ => Ok(List::new(alloc)),
    }
}

/// How the function names what the arguments of each of its instructions point to.
pub fn argument_names(alloc: Global, function: &Function) -> Result<List<List<Naming>>, AllocError>
    ensures { IfOk result (λ names. names ≡ spec.argument_namings function.now) }
{
    let instrs = function.instrs.as_slice();
    let starts = block_starts(alloc, instrs)?;
    let amounts = amounts(alloc, instrs, &starts)?;
    let fixed = fixed_formals(alloc, function)?;
    let mut held = HashMap::new(alloc);
    let mut names = List::new(alloc);
    for at in 0..instrs.len() {
        let act = &instrs[at].act;
        held = entered(alloc, held, starts[at]);
        names.push(names_of(alloc, &held, &fixed, act)?)?;
        pass(&mut held, &fixed, amounts[at], act)?;
    }
    Ok(names)
}
