//! What made the pointers and the numbers of elements of moves.
ghost use Rattle.std.specs.Prelude.{◌≡◌, ◌==◌, ℕ, nat_eq, if◌then◌else◌, None, Some, length, IfOk, OnOk};
ghost use Rattle.std.specs.HashMap.{get};
ghost use Rattle.facts.specs.Blocks.{AreStarts, assigns as assigns_of};
ghost use Rattle.loop_bounds.specs.Tables.{AreOperands};
ghost use Rattle.weak_lock_facts.specs.Ranges as spec;

use crate::acts::{assigned, moved_of};
use flow_code::{Act, Instr};
use std::alloc::{AllocError, Global};
use std::collections::HashMap;

// Which instruction of a block assigned each register last.
type Places = HashMap<u32, usize>;

// Nothing is assigned yet where a block begins.
fn entered(alloc: Global, places: Places, begins: bool) -> Places
    ensures { (r : ℕ) → get nat_eq result r ≡ (if begins then None else get nat_eq places r) }
{
    if begins { HashMap::new(alloc) } else { places }
}

fn pass(places: &mut Places, act: &Act, at: usize) -> Result<(), AllocError>
    ensures { OnOk result ((r : ℕ) → get nat_eq places.new r ≡ (if assigns_of r (Some act.now) then Some at else get nat_eq places.old r)) }
{
    if let Some(register) = assigned(act) {
        places.insert(register, at)?;
    }
    Ok(())
}

fn place_of(places: &Places, register: u32) -> Option<usize>
    ensures { result ≡ get nat_eq places.now register }
{
    places.get(&register).copied()
}

// What made the pointer and the number of a move.
fn operands(places: &Places, act: &Act) -> (Option<usize>, Option<usize>)
    ensures { (m : ℕ × ℕ) → spec.moved_of (Some act.now) ≡ Some m → result ≡ (get nat_eq places.now m.0, get nat_eq places.now m.1) }
{
    match moved_of(Some(act)) {
        Some((pointer, by)) => (place_of(places, pointer), place_of(places, by)),
        None => (None, None),
    }
}

/// The last instructions before each move in its block that assign its pointer and its number of elements.
pub fn operand_makers(
    alloc: Global,
    instrs: &[Instr],
    starts: &[bool],
) -> Result<Vec<(Option<usize>, Option<usize>)>, AllocError>
    requires starts { AreStarts instrs.now starts.now }
    requires length { length starts.now ≡ length instrs.now }
    ensures length { IfOk result (λ v. length v.items ≡ length instrs.now) }
    ensures each { IfOk result (λ v. AreOperands instrs.now v.items) }
{
    let mut makers = Vec::new(alloc);
    let mut places = HashMap::new(alloc);
    for at in 0..instrs.len() {
        let act = &instrs[at].act;
        places = entered(alloc, places, starts[at]);
        makers.push(operands(&places, act))?;
        pass(&mut places, act, at)?;
    }
    Ok(makers)
}
