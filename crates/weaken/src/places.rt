// What stands before each instruction of a weakened function, and where that comes to stand.
ghost use Rattle.std.specs.Prelude.{◌≡◌, ◌<◌, ◌≤◌, ◌+◌, ◌++◌, ◌∷◌, ◌&&◌, ◌==◌, ℕ, [], length, Some, IfOk, OnOk, slice_index_or, slice_get, if◌then◌else◌, nat_lt, nat_le};
ghost use Rattle.flow_code.specs.declared.act.Instr.{Instr};
ghost use Rattle.weak_code.specs.Places as spec;
ghost use Rattle.weaken.specs.Tables.{returns as returns_of, IsPlan};

use crate::grouping::{empty_groups, put};
use crate::plan::Plan;
use flow_code::{Act, Instr};
use rr_base::{List, length_sum};
use std::alloc::{AllocError, Global};
use weak_code::Stretch;

/// A number as regions have it. A function has fewer than 2^32 regions.
fn region_number(number: usize) -> Result<u32, AllocError>
    ensures { IfOk result (λ n. n ≡ number) }
{
    u32::try_from(number).map_err(|_| AllocError)
}

/// For each of so many instructions the regions that begin with it.
fn beginning(
    alloc: Global,
    stretches: &[Stretch],
    count: usize,
) -> Result<Vec<List<u32>>, AllocError>
    ensures len { IfOk result (λ v. length v.items ≡ count) }
    ensures each { IfOk result (λ v. (k : ℕ) → k < count → slice_index_or v.items k [] ≡ spec.beginning stretches.now k) }
{
    let mut groups = empty_groups(alloc, count)?;
    for number in 0..stretches.len() {
        let region = region_number(number)?;
        put(&mut groups, stretches[number].first, region)?;
    }
    Ok(groups)
}

fn following(stretch: &Stretch) -> Result<usize, AllocError>
    ensures { IfOk result (λ n. n ≡ stretch.now.last + 1) }
{
    length_sum(stretch.last, 1)
}

/// The regions that end before it.
fn ending(alloc: Global, stretches: &[Stretch], count: usize) -> Result<Vec<List<u32>>, AllocError>
    ensures len { IfOk result (λ v. length v.items ≡ count) }
    ensures each { IfOk result (λ v. (k : ℕ) → k < count → slice_index_or v.items k [] ≡ spec.ending stretches.now k) }
{
    let mut groups = empty_groups(alloc, count)?;
    for number in 0..stretches.len() {
        let region = region_number(number)?;
        let after = following(&stretches[number])?;
        put(&mut groups, after, region)?;
    }
    Ok(groups)
}

fn returns(act: &Act) -> bool
    ensures { result ≡ returns_of act.now }
{
    matches!(act, Act::Return { .. })
}

/// Puts a region to an instruction that returns.
fn put_return(
    instrs: &[Instr],
    at: usize,
    region: u32,
    groups: &mut Vec<List<u32>>,
) -> Result<(), AllocError>
    requires at { at < length instrs.now }
    requires long { length groups.old.items ≡ length instrs.now }
    ensures len { length groups.new.items ≡ length groups.old.items }
    ensures each { OnOk result ((k : ℕ) (i : Instr) → slice_get instrs.now k ≡ Some i → slice_index_or groups.new.items k [] ≡ (if returns_of i.act && (at == k) then slice_index_or groups.old.items k [] ++ region ∷ [] else slice_index_or groups.old.items k [])) }
{
    if returns(&instrs[at].act) {
        put(groups, at, region)?;
    }
    Ok(())
}

/// The place after the last instruction that a region covers.
fn end_in(instrs: &[Instr], stretch: &Stretch) -> Result<usize, AllocError>
    ensures bound { IfOk result (λ end. end ≤ length instrs.now) }
    ensures covers { IfOk result (λ end. (k : ℕ) → k < length instrs.now → nat_lt k end ≡ nat_le k stretch.now.last) }
{
    let end = following(stretch)?;
    if end < instrs.len() {
        Ok(end)
    } else {
        Ok(instrs.len())
    }
}

/// Puts a region to each return that it covers.
fn put_returns(
    instrs: &[Instr],
    stretch: &Stretch,
    region: u32,
    groups: &mut Vec<List<u32>>,
) -> Result<(), AllocError>
    requires { length groups.old.items ≡ length instrs.now }
    ensures len { length groups.new.items ≡ length groups.old.items }
    ensures each { OnOk result ((k : ℕ) (i : Instr) → slice_get instrs.now k ≡ Some i → slice_index_or groups.new.items k [] ≡ (if returns_of i.act && spec.covers k stretch.now then slice_index_or groups.old.items k [] ++ region ∷ [] else slice_index_or groups.old.items k [])) }
{
    let end = end_in(instrs, stretch)?;
    for at in stretch.first..end {
        put_return(instrs, at, region, groups)?;
    }
    Ok(())
}

/// The regions that are left at each return.
fn left(
    alloc: Global,
    instrs: &[Instr],
    stretches: &[Stretch],
) -> Result<Vec<List<u32>>, AllocError>
    ensures len { IfOk result (λ v. length v.items ≡ length instrs.now) }
    ensures each { IfOk result (λ v. (k : ℕ) (i : Instr) → slice_get instrs.now k ≡ Some i → slice_index_or v.items k [] ≡ spec.left stretches.now k i.act) }
{
    let mut groups = empty_groups(alloc, instrs.len())?;
    for number in 0..stretches.len() {
        let region = region_number(number)?;
        put_returns(instrs, &stretches[number], region, &mut groups)?;
    }
    Ok(groups)
}

/// The place after an instruction with so many weak ones before it.
fn after_block(place: usize, ends: usize, begins: usize, left: usize) -> Result<usize, AllocError>
    ensures { IfOk result (λ n. n ≡ place + (ends + begins + left + 1)) }
{
    let ended = length_sum(place, ends)?;
    let turned = length_sum(ended, begins)?;
    let before = length_sum(turned, left)?;
    length_sum(before, 1)
}

/// The places that follow from so many weak instructions before each instruction.
fn places(
    alloc: Global,
    _instrs: &[Instr],
    _stretches: &[Stretch],
    begins: &[List<u32>],
    ends: &[List<u32>],
    left: &[List<u32>],
) -> Result<Vec<usize>, AllocError>
    requires begins_long { length begins.now ≡ length _instrs.now }
    requires ends_long { length ends.now ≡ length _instrs.now }
    requires left_long { length left.now ≡ length _instrs.now }
    requires begins { (k : ℕ) → k < length _instrs.now → slice_index_or begins.now k [] ≡ spec.beginning _stretches.now k }
    requires ends { (k : ℕ) → k < length _instrs.now → slice_index_or ends.now k [] ≡ spec.ending _stretches.now k }
    requires left { (k : ℕ) (i : Instr) → slice_get _instrs.now k ≡ Some i → slice_index_or left.now k [] ≡ spec.left _stretches.now k i.act }
    ensures long { IfOk result (λ v. length v.items ≡ length _instrs.now) }
    ensures each { IfOk result (λ v. (k : ℕ) → k < length _instrs.now → slice_index_or v.items k 0 ≡ spec.place_of _stretches.now _instrs.now k) }
{
    let mut places = Vec::new(alloc);
    let mut place = 0usize;
    for at in 0.._instrs.len() {
        places.push(place)?;
        let next = after_block(place, ends[at].len(), begins[at].len(), left[at].len())?;
        place = next;
    }
    Ok(places)
}

/// What stands before each instruction, and where.
pub(crate) fn plan(
    alloc: Global,
    instrs: &[Instr],
    stretches: &[Stretch],
) -> Result<Plan, AllocError>
    ensures { IfOk result (IsPlan stretches.now instrs.now) }
{
    let begins = beginning(alloc, stretches, instrs.len())?;
    let ends = ending(alloc, stretches, instrs.len())?;
    let left = left(alloc, instrs, stretches)?;
    let places = places(alloc, instrs, stretches, &begins, &ends, &left)?;
    Ok(Plan {
        begins,
        ends,
        left,
        places,
    })
}
