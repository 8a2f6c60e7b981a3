//! Which of the loops that a function lists its instructions bear out.
ghost use Rattle.std.specs.Prelude.{◌≡◌, ◌+◌, ◌<◌, ◌^◌, true};
ghost use Rattle.flow_code.specs.Kinds as kinds;
ghost use Rattle.flow_code.specs.Regions as regions;
ghost use Rattle.loop_bounds.specs.Tables.{AreWays};
ghost use Rattle.weak_lock_facts.specs.Loops as spec;

use crate::acts::{
    bound_into, bound_size, copy_into, is_any_copy, is_branch, is_copy, is_jump, is_mark,
    is_sum_of, less_into, nth, number_into, sum_into,
};
use crate::spans::{is_never_assigned, keeps_bound, part};
use crate::ways::{Ways, is_entered_at};
use flow_code::{Bound, Function, Instr, LoopInfo, is_pointer};

fn has_whole(function: &Function, register: u32) -> bool
    ensures { result ≡ kinds.has_whole function.now register }
{
    register < function.registers && !is_pointer(function.pointers.as_slice(), register)
}

fn bound_is_whole(function: &Function, bound: Bound) -> bool
    ensures { result ≡ regions.bound_is_whole function.now bound }
{
    match bound {
        Bound::Number(_) => true,
        Bound::Register(register) => has_whole(function, register),
    }
}

fn are_numbers(function: &Function, counted: &LoopInfo) -> bool
    ensures { result ≡ spec.are_numbers function.now counted.now }
{
    has_whole(function, counted.counter)
        && bound_is_whole(function, counted.bound)
        && 0 < counted.step
}

/// Where the condition ends.
fn condition_end(counted: &LoopInfo) -> usize
    ensures place { result ≡ spec.condition_end counted.now }
    ensures near { result < 2 ^ 33 }
{
    counted.at as usize + 2 + bound_size(counted.bound)
}

// Whether the last part adds the counter itself.
fn adds_itself(instrs: &[Instr], counted: &LoopInfo) -> bool
    ensures { result ≡ spec.adds_itself instrs.now counted.now }
{
    is_sum_of(
        counted.counter,
        nth(instrs, (counted.last as usize).saturating_sub(2)),
    )
}

/// Where the last part begins.
fn last_part_at(instrs: &[Instr], counted: &LoopInfo) -> usize
    ensures { result ≡ spec.last_part_at instrs.now counted.now }
{
    let last = counted.last as usize;
    if adds_itself(instrs, counted) {
        last.saturating_sub(3)
    } else {
        last.saturating_sub(4)
    }
}

// Whether the condition stands after the Mark, and the last part after the body.
fn has_places(instrs: &[Instr], counted: &LoopInfo) -> bool
    ensures { result ≡ spec.has_places instrs.now counted.now }
{
    counted.first as usize == condition_end(counted) + 1
        && counted.first as usize <= last_part_at(instrs, counted)
}

/// The register that tells whether the counter is less than the bound.
fn tested(instrs: &[Instr], counted: &LoopInfo) -> Option<u32>
    ensures { result ≡ spec.tested instrs.now counted.now }
{
    let put = counted.at as usize + 1;
    let bound = bound_into(counted.bound, nth(instrs, put))?;
    let compared = put + bound_size(counted.bound);
    less_into(counted.counter, bound, nth(instrs, compared))
}

// Whether the loop begins with a Mark and its condition.
fn begins_so(instrs: &[Instr], counted: &LoopInfo) -> bool
    ensures { result ≡ spec.begins_so instrs.now counted.now }
{
    is_mark(nth(instrs, counted.at as usize))
        && is_branch(
            tested(instrs, counted),
            u64::from(counted.first),
            u64::from(counted.last) + 2,
            nth(instrs, condition_end(counted)),
        )
}

/// The register that has the counter in the last part.
fn added(instrs: &[Instr], counted: &LoopInfo) -> Option<u32>
    ensures { result ≡ spec.added instrs.now counted.now }
{
    if adds_itself(instrs, counted) {
        Some(counted.counter)
    } else {
        copy_into(
            counted.counter,
            nth(instrs, (counted.last as usize).saturating_sub(4)),
        )
    }
}

/// The register that gets the counter and the step together.
fn raised(instrs: &[Instr], counted: &LoopInfo) -> Option<u32>
    ensures { result ≡ spec.raised instrs.now counted.now }
{
    let last = counted.last as usize;
    let counter = added(instrs, counted)?;
    let step = number_into(counted.step, nth(instrs, last.saturating_sub(3)))?;
    sum_into(counter, step, nth(instrs, last.saturating_sub(2)))
}

// Whether the loop ends with its last part and the jump back.
fn ends_so(instrs: &[Instr], counted: &LoopInfo) -> bool
    ensures { result ≡ spec.ends_so instrs.now counted.now }
{
    let last = counted.last as usize;
    is_copy(
        raised(instrs, counted),
        counted.counter,
        nth(instrs, last.saturating_sub(1)),
    ) && is_any_copy(nth(instrs, last))
        && is_jump(counted.at, nth(instrs, last + 1))
}

fn has_form(instrs: &[Instr], counted: &LoopInfo) -> bool
    ensures { result ≡ spec.has_form instrs.now counted.now }
{
    has_places(instrs, counted) && begins_so(instrs, counted) && ends_so(instrs, counted)
}

// Whether only the last part assigns the counter.
fn keeps_counter(instrs: &[Instr], counted: &LoopInfo) -> bool
    ensures { result ≡ spec.keeps_counter instrs.now counted.now }
{
    let last = counted.last as usize;
    is_never_assigned(
        part(instrs, counted.at as usize, last.saturating_sub(1)),
        counted.counter,
    ) && is_never_assigned(part(instrs, last, last + 2), counted.counter)
}

fn keeps_numbers(instrs: &[Instr], counted: &LoopInfo) -> bool
    ensures { result ≡ spec.keeps_numbers instrs.now counted.now }
{
    keeps_counter(instrs, counted) && keeps_bound(instrs, counted, counted.bound)
}

// Whether the loop is entered at its Mark, as its condition is, and its last part where it begins.
fn is_entered_so(instrs: &[Instr], ways: &Ways, counted: &LoopInfo) -> bool
    requires ways { AreWays instrs.now ways.now }
    requires form { spec.has_form instrs.now counted.now ≡ true }
    ensures { result ≡ spec.is_entered_so instrs.now counted.now }
{
    let mark = counted.at as usize;
    let last = counted.last as usize;
    is_entered_at(instrs, ways, mark, last + 1)
        && is_entered_at(instrs, ways, mark, condition_end(counted))
        && is_entered_at(instrs, ways, last_part_at(instrs, counted), last + 1)
}

/// Whether the function's instructions bear the loop out.
pub fn is_counted(function: &Function, ways: &Ways, counted: &LoopInfo) -> bool
    requires { AreWays function.now.instrs ways.now }
    ensures { result ≡ spec.is_counted function.now counted.now }
{
    let instrs = function.instrs.as_slice();
    are_numbers(function, counted)
        && has_form(instrs, counted)
        && keeps_numbers(instrs, counted)
        && is_entered_so(instrs, ways, counted)
}
