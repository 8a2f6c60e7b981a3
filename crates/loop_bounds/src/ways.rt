//! Where control may come to a function's instructions from.
ghost use Rattle.std.specs.Prelude.{◌≡◌, ◌<◌, ◌+◌, ◌^◌, ◌==◌, ◌||◌, ℕ, if◌then◌else◌, length, slice_index_or, nat_lt, IfOk};
ghost use Rattle.facts.specs.Blocks.{goes_to};
ghost use Rattle.loop_bounds.specs.Tables.{AreFirsts, AreEnds, AreWays};
ghost use Rattle.weak_lock_facts.specs.Loops as loops;

use flow_code::{Act, Instr};
use std::alloc::{AllocError, Global};

/// The jumps and branches to each instruction: the first of them, or the number of instructions if there is none, and the
/// place after the last, or 0.
#[derive(Drop)]
pub struct Ways {
    pub firsts: Vec<usize>,
    pub ends: Vec<usize>,
}

// What is put down for an instruction, if there is such a one.
fn put(places: &mut Vec<usize>, to: u32, place: usize)
    ensures length { length places.new.items ≡ length places.old.items }
    ensures each { (m : ℕ) → m < length places.old.items → slice_index_or places.new.items m 0 ≡ (if to == m then place else slice_index_or places.old.items m 0) }
{
    let to = to as usize;
    if to < places.len() {
        places[to] = place;
    }
}

// That is put down for each instruction to which the one goes.
fn put_targets(places: &mut Vec<usize>, act: &Act, place: usize)
    ensures length { length places.new.items ≡ length places.old.items }
    ensures each { (m : ℕ) → m < length places.old.items → slice_index_or places.new.items m 0 ≡ (if goes_to m act.now then place else slice_index_or places.old.items m 0) }
{
    match act {
        Act::Jump { to } => put(places, *to, place),
        Act::Branch {
            on: _,
            then_at,
            else_at,
        } => {
            put(places, *then_at, place);
            put(places, *else_at, place);
        }
        _ => {}
    }
}

// The place after the last jump or branch to each instruction.
fn ends_of(alloc: Global, instrs: &[Instr]) -> Result<Vec<usize>, AllocError>
    ensures length { IfOk result (λ v. length v.items ≡ length instrs.now) }
    ensures each { IfOk result (λ v. AreEnds instrs.now v.items) }
{
    let mut ends = vec![in alloc; 0; instrs.len()]?;
    for at in 0..instrs.len() {
        put_targets(&mut ends, &instrs[at].act, at + 1);
    }
    Ok(ends)
}

// The first jump or branch to each instruction.
fn firsts_of(alloc: Global, instrs: &[Instr]) -> Result<Vec<usize>, AllocError>
    ensures length { IfOk result (λ v. length v.items ≡ length instrs.now) }
    ensures each { IfOk result (λ v. AreFirsts instrs.now v.items) }
{
    let mut firsts = vec![in alloc; instrs.len(); instrs.len()]?;
    let mut left = instrs.len();
    while left > 0 {
        left -= 1;
        put_targets(&mut firsts, &instrs[left].act, left);
    }
    Ok(firsts)
}

/// The ways to each instruction.
pub fn ways_of(alloc: Global, instrs: &[Instr]) -> Result<Ways, AllocError>
    ensures { IfOk result (λ w. AreWays instrs.now w) }
{
    let firsts = firsts_of(alloc, instrs)?;
    let ends = ends_of(alloc, instrs)?;
    Ok(Ways { firsts, ends })
}

// Whether another than the instructions from the one to the other goes there.
fn comes_in(ways: &Ways, from: usize, to: usize, target: usize) -> bool
    requires target { target < length ways.now.firsts.items }
    requires ends { length ways.now.ends.items ≡ length ways.now.firsts.items }
    requires to { to + 1 < 2 ^ 64 }
    ensures { result ≡ (nat_lt (slice_index_or ways.now.firsts.items target 0) from || nat_lt (to + 1) (slice_index_or ways.now.ends.items target 0)) }
{
    ways.firsts[target] < from || to + 1 < ways.ends[target]
}

/// Whether jumps and branches of others go only to the first of the instructions from the one to the other.
pub fn is_entered_at(instrs: &[Instr], ways: &Ways, from: usize, to: usize) -> bool
    requires ways { AreWays instrs.now ways.now }
    requires to { to < length instrs.now }
    ensures { result ≡ loops.is_entered_at instrs.now from to }
{
    let mut target = to;
    while target > from {
        if comes_in(ways, from, to, target) {
            return false;
        }
        target -= 1;
    }
    true
}
