//! The constants by which instructions move pointers, and which they add and subtract.
ghost use Rattle.std.specs.Prelude.{◌≡◌, ◌==◌, ℕ, if◌then◌else◌, None, Some, length, IfOk, OnOk};
ghost use Rattle.facts.specs.Blocks.{AreStarts, AreAmounts};
ghost use Rattle.facts.specs.Blocks as spec;
ghost use Rattle.facts.specs.Carried.{constant_in};

use crate::blocks::{assigned, constant_of};
use flow_code::{Act, Instr, Work};
use std::alloc::{AllocError, Global};
use std::collections::HashMap;

// What a block has put into registers so far, where that is a constant.
type Constants = HashMap<u32, Option<i64>>;

fn constant_held(held: &Constants, register: u32) -> Option<i64>
    ensures { result ≡ constant_in held.now register }
{
    match held.get(&register) {
        Some(constant) => *constant,
        None => None,
    }
}

// Nothing is carried into a block.
fn entered(alloc: Global, held: Constants, begins: bool) -> Constants
    ensures { (r : ℕ) → constant_in result r ≡ (if begins then None else constant_in held r) }
{
    if begins { HashMap::new(alloc) } else { held }
}

// An instruction puts something into the register that it assigns.
fn pass(held: &mut Constants, act: &Act) -> Result<(), AllocError>
    ensures { OnOk result ((r : ℕ) → constant_in held.new r ≡ (if spec.assigns r (Some act.now) then spec.constant_of (Some act.now) else constant_in held.old r)) }
{
    if let Some(register) = assigned(act) {
        held.insert(register, constant_of(act))?;
    }
    Ok(())
}

fn amount(held: &Constants, act: &Act) -> Option<i64>
    ensures { result ≡ spec.amount_by (constant_in held.now) (Some act.now) }
{
    match act {
        Act::Compute {
            into: _,
            work: Work::Move { by, .. },
        } => constant_held(held, *by),
        Act::Compute {
            into: _,
            work: Work::Binary { right, .. },
        } => constant_held(held, *right),
        _ => None,
    }
}

/// The constant by which each instruction moves a pointer, or that it adds or subtracts, where the last instruction before
/// it in its block that assigns the register computes one.
pub fn amounts(
    alloc: Global,
    instrs: &[Instr],
    starts: &[bool],
) -> Result<Vec<Option<i64>>, AllocError>
    requires starts { AreStarts instrs.now starts.now }
    requires length { length starts.now ≡ length instrs.now }
    ensures length { IfOk result (λ v. length v.items ≡ length instrs.now) }
    ensures each { IfOk result (λ v. AreAmounts instrs.now v.items) }
{
    let mut amounts = Vec::new(alloc);
    let mut held = HashMap::new(alloc);
    for at in 0..instrs.len() {
        let act = &instrs[at].act;
        held = entered(alloc, held, starts[at]);
        amounts.push(amount(&held, act))?;
        pass(&mut held, act)?;
    }
    Ok(amounts)
}
