// Accesses that may race, with what their regions need.
ghost use Rattle.std.specs.Prelude.{◌≡◌, ◌++◌, ℕ, true, Some, option_to_list, IfOk, OnOk};
ghost use Rattle.std.specs.List.{filter_map};
ghost use Rattle.facts.specs.Accesses as accesses;
ghost use Rattle.facts.specs.Pairs as facts_pairs;
ghost use Rattle.facts.specs.PointsTo.{are_ascending, HasRegisters};
ghost use Rattle.weak_code.specs.Stretches as stretches;
ghost use Rattle.weaken.specs.Registers.{through_of, access_through};
ghost use Rattle.weaken.specs.Tables.{shift_in, AreShifts};
ghost use Rattle.weak_code.specs.WeakLocks as spec;

use crate::locks::locks_of;
use facts::{AccessAt, PointsTo};
use flow_code::{Act, Code};
use rr_base::{List, Place};
use std::alloc::{AllocError, Global};
use weak_code::RacyAccess;
use weak_lock_facts::{Grained, Range};
use word_semantics::LibraryCall;

fn through_call(call: &LibraryCall, arguments: &[u32]) -> Option<u32>
    ensures { result ≡ through_of (accesses.library_access call.now arguments.now) }
{
    match (call, arguments) {
        (LibraryCall::Create { function: _ }, [thread, _]) => Some(*thread),
        (LibraryCall::Join, [_, into]) => Some(*into),
        _ => None,
    }
}

/// The register that points to the cell which an instruction loads or stores.
fn through(act: &Act) -> Option<u32>
    ensures { result ≡ through_of (accesses.access_of act.now) }
{
    match act {
        Act::LoadCell { into: _, through } => Some(*through),
        Act::StoreCell { through, from: _ } => Some(*through),
        Act::Library {
            call,
            arguments,
            into: _,
        } => through_call(call, arguments.as_slice()),
        _ => None,
    }
}

/// The register that points to the cell of an access.
pub(crate) fn through_at(code: &Code, at: AccessAt) -> Option<u32>
    ensures { result ≡ access_through code.now at }
{
    let function = code.functions.get(at.function as usize)?;
    let instr = function.instrs.get(at.instr as usize)?;
    through(&instr.act)
}

/// The places of which an access may touch a cell.
pub(crate) fn places_of<'a>(code: &Code, points: &'a PointsTo, at: AccessAt) -> &'a [Place]
    requires { HasRegisters code.now points.now }
    ensures { result.now ≡ facts_pairs.places_of code.now points.now at }
{
    let Some(function) = code.functions.get(at.function as usize) else {
        return &[];
    };
    let Some(instr) = function.instrs.get(at.instr as usize) else {
        return &[];
    };
    match through(&instr.act) {
        Some(register) if register < function.registers => {
            points.of_register(at.function, register).as_slice()
        }
        _ => &[],
    }
}

/// How far the element of an access of the function is from the counter, where its range is known: by the first of the
/// ranges at its instruction.
fn shift_at(by_instr: &[List<Range>], instr: u32) -> Option<i64>
    ensures { result ≡ shift_in by_instr.now instr }
{
    let range = by_instr.get(instr as usize)?.first()?;
    Some(range.shift)
}

/// The access with what its region needs.
fn racy_access(
    alloc: Global,
    code: &Code,
    points: &PointsTo,
    locked: &[Place],
    by_instr: &[List<Range>],
    row: &Grained,
    through: u32,
) -> Result<RacyAccess, AllocError>
    requires registers { HasRegisters code.now points.now }
    requires places { are_ascending locked.now ≡ true }
    ensures { IfOk result (λ a. a ≡ record { instr = row.now.access.instr; grain = row.now.grain; through = through; shift = shift_in by_instr.now row.now.access.instr; locks = spec.locks_of locked.now (facts_pairs.places_of code.now points.now row.now.access) }) }
{
    Ok(RacyAccess {
        instr: row.access.instr,
        grain: row.grain,
        through,
        shift: shift_at(by_instr, row.access.instr),
        locks: locks_of(alloc, locked, places_of(code, points, row.access))?,
    })
}

/// Puts the access, if one stands there. `_ranges` are all ranges, of which the first at the instruction is that of the
/// group.
fn put_access(
    alloc: Global,
    code: &Code,
    points: &PointsTo,
    locked: &[Place],
    _ranges: &[Range],
    by_instr: &[List<Range>],
    row: &Grained,
    accesses: &mut Vec<RacyAccess>,
) -> Result<(), AllocError>
    requires registers { HasRegisters code.now points.now }
    requires places { are_ascending locked.now ≡ true }
    requires shift { (r : ℕ) → access_through code.now row.now.access ≡ Some r → shift_in by_instr.now row.now.access.instr ≡ stretches.shift_of _ranges.now row.now.access }
    ensures { OnOk result (accesses.new.items ≡ accesses.old.items ++ option_to_list (stretches.racy_access code.now points.now locked.now _ranges.now row.now)) }
{
    if let Some(through) = through_at(code, row.access) {
        let access = racy_access(alloc, code, points, locked, by_instr, row, through)?;
        accesses.push(access)?;
    }
    Ok(())
}

/// The accesses of the function, of which these are the rows, in their order.
pub(crate) fn racy_accesses(
    alloc: Global,
    code: &Code,
    points: &PointsTo,
    locked: &[Place],
    ranges: &[Range],
    by_instr: &[List<Range>],
    rows: &[Grained],
) -> Result<Vec<RacyAccess>, AllocError>
    requires registers { HasRegisters code.now points.now }
    requires places { are_ascending locked.now ≡ true }
    requires shifts { AreShifts code.now ranges.now by_instr.now rows.now }
    ensures { IfOk result (λ v. v.items ≡ filter_map (stretches.racy_access code.now points.now locked.now ranges.now) rows.now) }
{
    let mut accesses = Vec::new(alloc);
    for row in rows {
        put_access(
            alloc,
            code,
            points,
            locked,
            ranges,
            by_instr,
            row,
            &mut accesses,
        )?;
    }
    Ok(accesses)
}
