// The instructions of a weakened function.
ghost use Rattle.std.specs.Prelude.{◌≡◌, ◌<◌, ◌+◌, ◌++◌, ◌∷◌, ℕ, true, [], length, map, Some, IfOk, OnOk, slice_index_or, slice_get};
ghost use Rattle.flow_code.specs.declared.act.Instr.{Instr};
ghost use Rattle.weak_code.specs.Places as places;
ghost use Rattle.weak_code.specs.Weakened as spec;
ghost use Rattle.weaken.specs.Tables.{IsPlan};
ghost use Rattle.weaken.specs.Jumps.{jumps_within, all_jumps_within};

use crate::copies::copied_act;
use crate::plan::Plan;
use flow_code::{Act, Instr};
use rr_base::{List, length_sum};
use std::alloc::{AllocError, Global};
use weak_code::Stretch;

/// An instruction's place as jumps have it. A function has fewer than 2^32 instructions.
fn instr_number(place: usize, more: usize) -> Result<u32, AllocError>
    ensures { IfOk result (λ n. n ≡ place + more) }
{
    let sum = length_sum(place, more)?;
    u32::try_from(sum).map_err(|_| AllocError)
}

/// How many Gives and Takes stand before an instruction, but for those of a return.
fn turned_len(plan: &Plan, at: usize) -> Result<usize, AllocError>
    requires begins { at < length plan.now.begins.items }
    requires ends { at < length plan.now.ends.items }
    ensures { IfOk result (λ n. n ≡ length (slice_index_or plan.now.ends.items at []) + length (slice_index_or plan.now.begins.items at [])) }
{
    length_sum(plan.ends[at].len(), plan.begins[at].len())
}

/// Where an instruction itself comes to stand.
pub(crate) fn seat(
    _stretches: &[Stretch],
    plan: &Plan,
    instrs: &[Instr],
    at: usize,
) -> Result<u32, AllocError>
    requires plan { IsPlan _stretches.now instrs.now plan.now }
    requires at { at < length instrs.now }
    ensures { IfOk result (λ n. n ≡ places.seat_of _stretches.now instrs.now at) }
{
    let turned = turned_len(plan, at)?;
    let before = length_sum(turned, plan.left[at].len())?;
    instr_number(plan.places[at], before)
}

/// Where that which stands before an instruction begins.
pub(crate) fn front(
    _stretches: &[Stretch],
    plan: &Plan,
    _instrs: &[Instr],
    at: usize,
) -> Result<u32, AllocError>
    requires plan { IsPlan _stretches.now _instrs.now plan.now }
    requires at { at < length _instrs.now }
    ensures { IfOk result (λ n. n ≡ places.place_of _stretches.now _instrs.now at) }
{
    instr_number(plan.places[at], 0)
}

/// Where a jump goes.
fn enter(
    stretches: &[Stretch],
    plan: &Plan,
    instrs: &[Instr],
    from: usize,
    to: usize,
) -> Result<u32, AllocError>
    requires plan { IsPlan stretches.now instrs.now plan.now }
    requires to { to < length instrs.now }
    ensures { IfOk result (λ n. n ≡ places.enter stretches.now instrs.now from to) }
{
    if to <= from {
        seat(stretches, plan, instrs, to)
    } else {
        front(stretches, plan, instrs, to)
    }
}

/// What the instruction does, with the places to which its jumps go.
fn retargeted(
    alloc: Global,
    stretches: &[Stretch],
    plan: &Plan,
    instrs: &[Instr],
    at: usize,
    act: &Act,
) -> Result<Act, AllocError>
    requires plan { IsPlan stretches.now instrs.now plan.now }
    requires within { jumps_within (length instrs.now) act.now ≡ true }
    ensures { IfOk result (λ a. a ≡ spec.retarget (places.enter stretches.now instrs.now at) act.now) }
{
    match act {
        Act::Jump { to } => Ok(Act::Jump {
            to: enter(stretches, plan, instrs, at, *to as usize)?,
        }),
        Act::Branch {
            on,
            then_at,
            else_at,
        } => Ok(Act::Branch {
            on: *on,
            then_at: enter(stretches, plan, instrs, at, *then_at as usize)?,
            else_at: enter(stretches, plan, instrs, at, *else_at as usize)?,
        }),
        _ => copied_act(alloc, act),
    }
}

/// Puts a weak instruction that stands where another does.
fn put_weak(written: &mut List<Instr>, instr: &Instr, act: Act) -> Result<(), AllocError>
    ensures { OnOk result (written.new ≡ written.old ++ spec.at_instr instr.now act ∷ []) }
{
    written.push(Instr { at: instr.at, act })
}

/// Puts the Gives of some regions, the last first.
fn put_gives(written: &mut List<Instr>, instr: &Instr, regions: &[u32]) -> Result<(), AllocError>
    ensures { OnOk result (written.new ≡ written.old ++ map (spec.at_instr instr.now) (places.gives regions.now)) }
{
    let mut left = regions.len();
    while left > 0 {
        left -= 1;
        put_weak(written, instr, Act::Give(regions[left]))?;
    }
    Ok(())
}

/// Puts the Takes of some regions.
fn put_takes(written: &mut List<Instr>, instr: &Instr, regions: &[u32]) -> Result<(), AllocError>
    ensures { OnOk result (written.new ≡ written.old ++ map (spec.at_instr instr.now) (places.takes regions.now)) }
{
    for region in regions {
        put_weak(written, instr, Act::Take(*region))?;
    }
    Ok(())
}

/// Puts what stands before an instruction.
fn put_before(
    _stretches: &[Stretch],
    plan: &Plan,
    instrs: &[Instr],
    at: usize,
    written: &mut List<Instr>,
) -> Result<(), AllocError>
    requires plan { IsPlan _stretches.now instrs.now plan.now }
    requires at { at < length instrs.now }
    ensures { (i : Instr) → slice_get instrs.now at ≡ Some i → OnOk result (written.new ≡ written.old ++ map (spec.at_instr i) (places.before _stretches.now at i.act)) }
{
    let instr = &instrs[at];
    put_gives(written, instr, plan.ends[at].as_slice())?;
    put_takes(written, instr, plan.begins[at].as_slice())?;
    put_gives(written, instr, plan.left[at].as_slice())
}

/// Puts an instruction, after what stands before it.
fn put_block(
    alloc: Global,
    stretches: &[Stretch],
    plan: &Plan,
    instrs: &[Instr],
    at: usize,
    written: &mut List<Instr>,
) -> Result<(), AllocError>
    requires plan { IsPlan stretches.now instrs.now plan.now }
    requires at { at < length instrs.now }
    requires within { all_jumps_within (length instrs.now) instrs.now ≡ true }
    ensures { (i : Instr) → slice_get instrs.now at ≡ Some i → OnOk result (written.new ≡ written.old ++ spec.block stretches.now instrs.now at i) }
{
    put_before(stretches, plan, instrs, at, written)?;
    let instr = &instrs[at];
    let act = retargeted(alloc, stretches, plan, instrs, at, &instr.act)?;
    put_weak(written, instr, act)
}

/// The instructions with their weak ones.
pub(crate) fn weakened_instrs(
    alloc: Global,
    stretches: &[Stretch],
    plan: &Plan,
    instrs: &[Instr],
) -> Result<List<Instr>, AllocError>
    requires plan { IsPlan stretches.now instrs.now plan.now }
    requires within { all_jumps_within (length instrs.now) instrs.now ≡ true }
    ensures { IfOk result (λ written. written ≡ spec.weakened_instrs stretches.now instrs.now) }
{
    let mut written = List::new(alloc);
    for at in 0..instrs.len() {
        put_block(alloc, stretches, plan, instrs, at, &mut written)?;
    }
    Ok(written)
}
