// The elements that the accesses of loops touch.
ghost use Rattle.std.specs.Prelude.{◌≡◌, ◌<◌, ◌≤◌, ℕ, [], length, Some, IfOk, OnOk, slice_index_or, All};
ghost use Rattle.std.specs.Option.{option_map};
ghost use Rattle.facts.specs.Blocks.{AreStarts};
ghost use Rattle.weak_lock_facts.specs.Ranges.{made_at as made};
ghost use Rattle.weak_code.specs.Stretches as spec;
ghost use Rattle.weaken.specs.Tables.{with_span};

use crate::grouping::{empty_groups, put};
use flow_code::{Act, Base, Instr, Span, Work};
use loop_bounds::{last_maker, made_at};
use rr_base::List;
use std::alloc::{AllocError, Global};
use weak_code::RacyAccess;
use weak_lock_facts::Grain;

fn moved_from(act: &Act) -> Option<u32>
    ensures { result ≡ spec.moved_from (Some act.now) }
{
    match act {
        Act::Compute {
            into: _,
            work: Work::Move { pointer, .. },
        } => Some(*pointer),
        _ => None,
    }
}

fn origin_of(register: u32, act: &Act) -> Base
    ensures { result ≡ spec.origin_of register (Some act.now) }
{
    match act {
        Act::Compute {
            into: _,
            work: Work::Address(word),
        } => Base::Site(word.site()),
        _ => Base::Register(register),
    }
}

/// The base of a pointer where the instruction at the place moves it.
fn origin_at(instrs: &[Instr], starts: &[bool], at: usize, register: u32) -> Base
    requires starts { AreStarts instrs.now starts.now }
    requires length { length starts.now ≡ length instrs.now }
    requires at { at < length instrs.now }
    ensures { result ≡ spec.origin_of register (made instrs.now at register) }
{
    match made_at(instrs, starts, at, register) {
        Some(act) => origin_of(register, act),
        None => Base::Register(register),
    }
}

/// The base of an element whose pointer is in a register.
fn element_base(instrs: &[Instr], starts: &[bool], at: usize, through: u32) -> Base
    requires starts { AreStarts instrs.now starts.now }
    requires length { length starts.now ≡ length instrs.now }
    requires at { at < length instrs.now }
    ensures { result ≡ spec.element_base instrs.now at through }
{
    let Some(maker) = last_maker(instrs, at, through) else {
        return Base::Register(through);
    };
    match moved_from(&instrs[maker].act) {
        Some(pointer) => origin_at(instrs, starts, maker, pointer),
        None => Base::Register(through),
    }
}

fn span_with(
    alloc: Global,
    instrs: &[Instr],
    starts: &[bool],
    access: &RacyAccess,
    shift: i64,
) -> Result<Span, AllocError>
    requires starts { AreStarts instrs.now starts.now }
    requires length { length starts.now ≡ length instrs.now }
    requires access { access.now.instr < length instrs.now }
    ensures { IfOk result (λ span. span ≡ spec.span_with instrs.now access.now shift) }
{
    let base = element_base(instrs, starts, access.instr as usize, access.through);
    Ok(Span {
        base,
        shift,
        locks: access.locks.copied(alloc)?,
    })
}

/// Puts the span of an access to those of its loop, if it is guarded with one.
fn put_span(
    alloc: Global,
    instrs: &[Instr],
    starts: &[bool],
    access: &RacyAccess,
    groups: &mut Vec<List<Span>>,
) -> Result<(), AllocError>
    requires starts { AreStarts instrs.now starts.now }
    requires length { length starts.now ≡ length instrs.now }
    requires access { access.now.instr < length instrs.now }
    ensures len { length groups.new.items ≡ length groups.old.items }
    ensures each { OnOk result ((k : ℕ) → k < length groups.old.items → slice_index_or groups.new.items k [] ≡ with_span instrs.now k access.now (slice_index_or groups.old.items k [])) }
{
    if let Grain::Loop(mark) = access.grain {
        if let Some(shift) = access.shift {
            put(
                groups,
                mark as usize,
                span_with(alloc, instrs, starts, access, shift)?,
            )?;
        }
    }
    Ok(())
}

/// For each of so many instructions the spans of the loop whose Mark it is.
pub(crate) fn spans_by_mark(
    alloc: Global,
    instrs: &[Instr],
    starts: &[bool],
    accesses: &[RacyAccess],
    count: usize,
) -> Result<Vec<List<Span>>, AllocError>
    requires starts { AreStarts instrs.now starts.now }
    requires length { length starts.now ≡ length instrs.now }
    requires accesses { All (λ a. a.instr < length instrs.now) accesses.now }
    ensures len { IfOk result (λ v. length v.items ≡ count) }
    ensures each { IfOk result (λ v. (k : ℕ) → k < count → slice_index_or v.items k [] ≡ spec.spans_of instrs.now k accesses.now) }
{
    let mut groups = empty_groups(alloc, count)?;
    for access in accesses {
        put_span(alloc, instrs, starts, access, &mut groups)?;
    }
    Ok(groups)
}

fn copied_span(alloc: Global, span: &Span) -> Result<Span, AllocError>
    ensures { IfOk result (λ copy. copy ≡ span.now) }
{
    Ok(Span {
        base: span.base,
        shift: span.shift,
        locks: span.locks.copied(alloc)?,
    })
}

pub(crate) fn copied_spans(alloc: Global, spans: &[Span]) -> Result<List<Span>, AllocError>
    ensures { IfOk result (λ copies. copies ≡ spans.now) }
{
    let mut copies = List::new(alloc);
    for span in spans {
        copies.push(copied_span(alloc, span)?)?;
    }
    Ok(copies)
}
