//! Blocks of a function's instructions, and the constants in them.
ghost use Rattle.std.specs.Prelude.{◌≡◌, ◌<◌, ◌==◌, ◌||◌, ℕ, Bool, false, length, slice_index_or, Some, IfOk};
ghost use Rattle.facts.specs.Blocks.{AreStarts};
ghost use Rattle.facts.specs.Blocks as spec;

use flow_code::{Act, Instr, Work};
use std::alloc::{AllocError, Global};

// Whether a block ends with the instruction.
fn ends_block(act: &Act) -> bool
    ensures { result ≡ spec.ends_block act.now }
{
    matches!(
        act,
        Act::Jump { .. }
            | Act::Branch { .. }
            | Act::Call { .. }
            | Act::Library { .. }
            | Act::Return { .. }
    )
}

// A block begins there, if that is an instruction.
fn mark(starts: &mut Vec<bool>, to: u32)
    ensures length { length starts.new.items ≡ length starts.old.items }
    ensures each { (k : ℕ) → k < length starts.old.items → slice_index_or starts.new.items k false ≡ (slice_index_or starts.old.items k false || to == k) }
{
    let to = to as usize;
    if to < starts.len() {
        starts[to] = true;
    }
}

// Blocks begin where a jump or branch goes.
fn mark_targets(starts: &mut Vec<bool>, act: &Act)
    ensures length { length starts.new.items ≡ length starts.old.items }
    ensures each { (k : ℕ) → k < length starts.old.items → slice_index_or starts.new.items k false ≡ (slice_index_or starts.old.items k false || spec.goes_to k act.now) }
{
    match act {
        Act::Jump { to } => mark(starts, *to),
        Act::Branch {
            on: _,
            then_at,
            else_at,
        } => {
            mark(starts, *then_at);
            mark(starts, *else_at);
        }
        _ => {}
    }
}

// Where nothing stands before an instruction, or a block ends there.
fn after_ends(alloc: Global, instrs: &[Instr]) -> Result<Vec<bool>, AllocError>
    ensures length { IfOk result (λ v. length v.items ≡ length instrs.now) }
    ensures each { IfOk result (λ v. (k : ℕ) → k < length instrs.now → slice_index_or v.items k false ≡ spec.follows_end instrs.now k) }
{
    let mut starts = Vec::new(alloc);
    let mut begins = true;
    for instr in instrs {
        starts.push(begins)?;
        begins = ends_block(&instr.act);
    }
    Ok(starts)
}

/// Whether a block begins at each instruction.
pub fn block_starts(alloc: Global, instrs: &[Instr]) -> Result<Vec<bool>, AllocError>
    ensures length { IfOk result (λ v. length v.items ≡ length instrs.now) }
    ensures each { IfOk result (λ v. AreStarts instrs.now v.items) }
{
    let mut starts = after_ends(alloc, instrs)?;
    for instr in instrs {
        mark_targets(&mut starts, &instr.act);
    }
    Ok(starts)
}

/// The register that the instruction assigns, if it assigns one.
pub fn assigned(act: &Act) -> Option<u32>
    ensures { result ≡ spec.assigned act.now }
{
    match act {
        Act::Compute { into, .. } | Act::Alloc { into, .. } | Act::LoadCell { into, .. } => {
            Some(*into)
        }
        Act::Call { into, .. } | Act::Library { into, .. } => *into,
        _ => None,
    }
}

/// The constant that the instruction computes.
pub fn constant_of(act: &Act) -> Option<i64>
    ensures { result ≡ spec.constant_of (Some act.now) }
{
    match act {
        Act::Compute {
            into: _,
            work: Work::Constant(number),
        } => Some(*number),
        _ => None,
    }
}

/// The constant that the register holds at an instruction, where the last instruction before it in its block that
/// assigns the register computes one.
pub fn constant_at(instrs: &[Instr], starts: &[bool], at: usize, register: u32) -> Option<i64>
    requires starts { AreStarts instrs.now starts.now }
    requires length { length starts.now ≡ length instrs.now }
    requires at { at < length instrs.now }
    ensures { result ≡ spec.constant_at instrs.now at register }
{
    let mut place = at;
    while place > 0 {
        if starts[place] {
            return None;
        }
        place -= 1;
        let act = &instrs[place].act;
        if assigned(act) == Some(register) {
            return constant_of(act);
        }
    }
    None
}
