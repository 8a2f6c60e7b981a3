// The regions of a function.
ghost use Rattle.std.specs.Prelude.{◌≡◌, ◌<◌, ◌+◌, ◌++◌, ◌∷◌, ℕ, true, [], length, Some, IfOk, OnOk, map, option_to_list, slice_get, if◌then◌else◌, All};
ghost use Rattle.std.specs.List.{list_any};
ghost use Rattle.weaken.specs.declared.plan.Part.{Part};
ghost use Rattle.flow_code.specs.Regions.{ascend};
ghost use Rattle.flow_code.specs.Valid.{loops_fit};
ghost use Rattle.weak_lock_facts.specs.declared.grain.Grain.TheVariants as grains;
ghost use Rattle.weak_code.specs.declared.stretch.RacyAccess.{RacyAccess};
ghost use Rattle.weak_code.specs.Stretches as spec;
ghost use Rattle.weaken.specs.Tables.{grown, part_of};

use crate::locks::put_all;
use crate::plan::Part;
use crate::spans::{copied_spans, spans_by_mark};
use facts::block_starts;
use flow_code::{Base, Function, LoopInfo, Region, Span, objects_len};
use rr_base::List;
use std::alloc::{AllocError, Global};
use weak_code::{RacyAccess, Stretch};
use weak_lock_facts::Grain;

fn is_whole(grain: Grain) -> bool
    ensures { result ≡ spec.same_grain grains.Function grain }
{
    matches!(grain, Grain::Function)
}

/// Whether some access is guarded with the function.
fn any_whole(accesses: &[RacyAccess]) -> bool
    ensures { result ≡ list_any (λ a. spec.same_grain grains.Function a.grain) accesses.now }
{
    accesses.iter().any(|access| is_whole(access.grain))
}

/// Puts the locks of an access, if it is guarded with the function.
fn put_whole(locks: &mut List<u16>, access: &RacyAccess) -> Result<(), AllocError>
    requires { ascend locks.old ≡ true }
    ensures ascending { ascend locks.new ≡ true }
    ensures value { OnOk result (locks.new ≡ (if spec.same_grain grains.Function access.now.grain then spec.with_all locks.old access.now.locks else locks.old)) }
{
    if is_whole(access.grain) {
        put_all(locks, access.locks.as_slice())?;
    }
    Ok(())
}

/// The locks of the accesses that are guarded with the function.
fn locks_of_function(alloc: Global, accesses: &[RacyAccess]) -> Result<List<u16>, AllocError>
    ensures { IfOk result (λ locks. locks ≡ spec.all_locks (spec.with_grain grains.Function accesses.now)) }
{
    let mut locks = List::new(alloc);
    for access in accesses {
        put_whole(&mut locks, access)?;
    }
    Ok(locks)
}

/// Puts the region of the function, if it has one.
fn put_function(
    alloc: Global,
    function: &Function,
    accesses: &[RacyAccess],
    stretches: &mut Vec<Stretch>,
) -> Result<(), AllocError>
    requires { 0 < length function.now.instrs }
    ensures { OnOk result (stretches.new.items ≡ stretches.old.items ++ spec.function_stretch function.now (spec.with_grain grains.Function accesses.now)) }
{
    if any_whole(accesses) {
        stretches.push(Stretch {
            first: objects_len(function.instrs.as_slice()),
            last: function.instrs.len() - 1,
            region: Region::Whole {
                locks: locks_of_function(alloc, accesses)?,
            },
        })?;
    }
    Ok(())
}

/// Puts the region of a loop, if it has spans.
fn put_loop(
    alloc: Global,
    counted: &LoopInfo,
    spans: &[Span],
    stretches: &mut Vec<Stretch>,
) -> Result<(), AllocError>
    ensures { OnOk result (stretches.new.items ≡ stretches.old.items ++ option_to_list (spec.loop_stretch counted.now spans.now)) }
{
    if !spans.is_empty() {
        stretches.push(Stretch {
            first: counted.at as usize,
            last: counted.last as usize + 1,
            region: Region::Ranged {
                counter: counted.counter,
                bound: counted.bound,
                spans: copied_spans(alloc, spans)?,
            },
        })?;
    }
    Ok(())
}

/// Puts the regions of the loops.
fn put_loops(
    alloc: Global,
    function: &Function,
    accesses: &[RacyAccess],
    stretches: &mut Vec<Stretch>,
) -> Result<(), AllocError>
    requires loops { loops_fit function.now function.now.loops ≡ true }
    requires within { All (λ a. a.instr < length function.now.instrs) accesses.now }
    ensures { OnOk result (stretches.new.items ≡ stretches.old.items ++ spec.loop_stretches function.now accesses.now) }
{
    let instrs = function.instrs.as_slice();
    let starts = block_starts(alloc, instrs)?;
    let spans = spans_by_mark(alloc, instrs, &starts, accesses, instrs.len())?;
    for counted in function.loops.as_slice() {
        put_loop(
            alloc,
            counted,
            spans[counted.at as usize].as_slice(),
            stretches,
        )?;
    }
    Ok(())
}

/// Of each of so many blocks, by the first of its accesses, what no access tells.
fn no_parts(alloc: Global, count: usize) -> Result<Vec<Part>, AllocError>
    ensures len { IfOk result (λ v. length v.items ≡ count) }
    ensures each { IfOk result (λ v. (k : ℕ) → k < count → slice_get v.items k ≡ Some (part_of k [])) }
{
    let mut parts = Vec::new(alloc);
    for first in 0..count {
        parts.push(Part {
            last: first,
            locks: List::new(alloc),
        })?;
    }
    Ok(parts)
}

fn grow_part(part: &mut Part, access: &RacyAccess) -> Result<(), AllocError>
    requires { ascend part.old.locks ≡ true }
    ensures { OnOk result (part.new ≡ record { last = access.now.instr; locks = spec.with_all part.old.locks access.now.locks }) }
{
    put_all(&mut part.locks, access.locks.as_slice())?;
    part.last = access.instr as usize;
    Ok(())
}

/// Adds an access to its block, if it is guarded with one.
fn grow(parts: &mut Vec<Part>, access: &RacyAccess) -> Result<(), AllocError>
    requires { (k : ℕ) (p : Part) → slice_get parts.old.items k ≡ Some p → ascend p.locks ≡ true }
    ensures len { length parts.new.items ≡ length parts.old.items }
    ensures each { OnOk result ((k : ℕ) (p : Part) → slice_get parts.old.items k ≡ Some p → slice_get parts.new.items k ≡ Some (grown k access.now p)) }
{
    if let Grain::Block(first) = access.grain {
        if (first as usize) < parts.len() {
            grow_part(&mut parts[first as usize], access)?;
        }
    }
    Ok(())
}

fn parts_of(alloc: Global, accesses: &[RacyAccess], count: usize) -> Result<Vec<Part>, AllocError>
    ensures len { IfOk result (λ v. length v.items ≡ count) }
    ensures each { IfOk result (λ v. (k : ℕ) → k < count → slice_get v.items k ≡ Some (part_of k accesses.now)) }
{
    let mut parts = no_parts(alloc, count)?;
    for access in accesses {
        grow(&mut parts, access)?;
    }
    Ok(parts)
}

/// Puts the region of the block of which the access is the first.
fn put_block(
    alloc: Global,
    accesses: &[RacyAccess],
    parts: &[Part],
    access: &RacyAccess,
    stretches: &mut Vec<Stretch>,
) -> Result<(), AllocError>
    requires within { access.now.instr < length parts.now }
    requires parts { (k : ℕ) → k < length parts.now → slice_get parts.now k ≡ Some (part_of k accesses.now) }
    ensures { OnOk result (stretches.new.items ≡ stretches.old.items ++ option_to_list (spec.block_from accesses.now access.now)) }
{
    if access.grain == Grain::Block(access.instr) {
        let first = access.instr as usize;
        stretches.push(Stretch {
            first,
            last: parts[first].last,
            region: Region::Whole {
                locks: parts[first].locks.copied(alloc)?,
            },
        })?;
    }
    Ok(())
}

/// Puts the regions of the blocks.
fn put_blocks(
    alloc: Global,
    accesses: &[RacyAccess],
    count: usize,
    stretches: &mut Vec<Stretch>,
) -> Result<(), AllocError>
    requires { All (λ a. a.instr < count) accesses.now }
    ensures { OnOk result (stretches.new.items ≡ stretches.old.items ++ spec.block_stretches accesses.now) }
{
    let parts = parts_of(alloc, accesses, count)?;
    for access in accesses {
        put_block(alloc, accesses, &parts, access, stretches)?;
    }
    Ok(())
}

/// Puts the region of an access that is guarded alone.
fn put_access(
    alloc: Global,
    access: &RacyAccess,
    stretches: &mut Vec<Stretch>,
) -> Result<(), AllocError>
    ensures { OnOk result (stretches.new.items ≡ stretches.old.items ++ map spec.access_stretch (spec.with_grain grains.Instruction (access.now ∷ []))) }
{
    if access.grain == Grain::Instruction {
        let at = access.instr as usize;
        stretches.push(Stretch {
            first: at,
            last: at,
            region: Region::Cell {
                base: Base::Register(access.through),
                locks: access.locks.copied(alloc)?,
            },
        })?;
    }
    Ok(())
}

/// Puts the regions of the accesses that are guarded alone.
fn put_accesses(
    alloc: Global,
    accesses: &[RacyAccess],
    stretches: &mut Vec<Stretch>,
) -> Result<(), AllocError>
    ensures { OnOk result (stretches.new.items ≡ stretches.old.items ++ spec.access_stretches accesses.now) }
{
    for access in accesses {
        put_access(alloc, access, stretches)?;
    }
    Ok(())
}

/// The regions of a function with these accesses.
pub(crate) fn stretches_of(
    alloc: Global,
    function: &Function,
    accesses: &[RacyAccess],
) -> Result<Vec<Stretch>, AllocError>
    requires filled { 0 < length function.now.instrs }
    requires loops { loops_fit function.now function.now.loops ≡ true }
    requires within { All (λ a. a.instr < length function.now.instrs) accesses.now }
    ensures { IfOk result (λ v. v.items ≡ spec.stretches_of function.now accesses.now) }
{
    let mut stretches = Vec::new(alloc);
    put_function(alloc, function, accesses, &mut stretches)?;
    put_loops(alloc, function, accesses, &mut stretches)?;
    put_blocks(alloc, accesses, function.instrs.len(), &mut stretches)?;
    put_accesses(alloc, accesses, &mut stretches)?;
    Ok(stretches)
}
