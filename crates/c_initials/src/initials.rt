//! The first values of a block's objects (C99 6.7.8).
ghost use Rattle.std.specs.Prelude.{◌≡◌, ◌+◌, ◌++◌, ◌∷◌, [], IfOk, OnOk, drop, map};
ghost use Rattle.c_tree.specs.Tree.{listed_inits};
ghost use Rattle.c_tree.specs.View.{init_of};
ghost use Rattle.c_types.specs.Shown.{shown_maybe, shown_target};
ghost use Rattle.c_programs.specs.Initials.{value_target};
ghost use Rattle.core_tree.specs.Core as core;
ghost use Rattle.core_tree.specs.View.{exp_of, stmt_of};
ghost use Rattle.c_values.specs.Expressions.{kind_of_type};
ghost use Rattle.c_initials.specs.Initials as spec;
ghost use Rattle.c_operators.specs.Views.{context_of, source_in};

use c_operators::{Context, Home, Source, WordKind, make};
use c_programs::{part_at, ref_of, value_target};
use c_tree::Initial;
use c_types::{ObjectType, Target, TypeRef, put_layered};
use c_values::{kind_of_type, wanted};
use core_tree::{Statement, Value};
use rr_base::{CellKind, List, Position, sum};
use std::alloc::{AllocError, Global};

/// The kinds of the cells of an object of the type.
pub fn kinds_of_some(
    alloc: Global,
    source: &Source,
    of: Option<TypeRef>,
) -> Result<List<CellKind>, AllocError>
    ensures { IfOk result (λ ks. ks ≡ spec.kinds_of_some (source_in source.now) (shown_maybe of.entry)) }
{
    let mut kinds = List::new(alloc);
    let Some(of) = of else {
        return Ok(kinds);
    };
    if of.stars > 0 {
        kinds.push(CellKind::Pointer)?;
        return Ok(kinds);
    }
    put_layered(
        alloc,
        &mut kinds,
        of.layers,
        of.base,
        source.kinds.as_slice(),
    )?;
    Ok(kinds)
}

/// A cell of an object gets a word.
fn push_stored(
    alloc: Global,
    object: u32,
    at: Position,
    offset: u32,
    value: Box<Value>,
    out: &mut List<Statement>,
) -> Result<(), AllocError>
    ensures { OnOk result (map stmt_of out.new ≡ map stmt_of out.old ++ spec.cell_stored object at offset (exp_of value.value) ∷ []) }
{
    let begin = make::object(alloc, object, at)?;
    let through = make::member(alloc, begin, offset, at)?;
    let store = make::store(alloc, through, value, at)?;
    out.push(Statement::Compute(Box::into_inner(store)))
}

fn push_cleared_cell(
    alloc: Global,
    object: u32,
    at: Position,
    offset: u32,
    kind: CellKind,
    out: &mut List<Statement>,
) -> Result<(), AllocError>
    ensures { OnOk result (map stmt_of out.new ≡ map stmt_of out.old ++ spec.cell_cleared object at offset kind) }
{
    match kind {
        CellKind::Whole => {
            let zero = make::number(alloc, 0, at)?;
            push_stored(alloc, object, at, offset, zero, out)
        }
        CellKind::Pointer => {
            let null = make::null(alloc, at)?;
            push_stored(alloc, object, at, offset, null, out)
        }
        CellKind::Mutex | CellKind::Cond | CellKind::Barrier | CellKind::Rw => Ok(()),
    }
}

/// Cells of these kinds, from the offset on, become 0.
fn push_cleared(
    alloc: Global,
    object: u32,
    at: Position,
    offset: u32,
    kinds: &[CellKind],
    out: &mut List<Statement>,
) -> Result<(), AllocError>
    ensures { OnOk result (map stmt_of out.new ≡ map stmt_of out.old ++ spec.cleared object at offset kinds.now) }
{
    let mut next = offset;
    for kind in kinds {
        push_cleared_cell(alloc, object, at, next, *kind, out)?;
        next = sum(next, 1)?;
    }
    Ok(())
}

/// The kinds after so many of the first.
fn kinds_past(kinds: &[CellKind], many: usize) -> &[CellKind]
    ensures { result.now ≡ drop many kinds.now }
{
    if many <= kinds.len() {
        &kinds[many..]
    } else {
        &[]
    }
}

/// What lies from the offset on of a part of the type that begins at `begin`.
fn push_rest(
    alloc: Global,
    source: &Source,
    object: u32,
    at: Position,
    of: Option<TypeRef>,
    begin: u32,
    offset: u32,
    out: &mut List<Statement>,
) -> Result<(), AllocError>
    ensures { OnOk result (map stmt_of out.new ≡ map stmt_of out.old ++ spec.rest_cleared (source_in source.now) object at (shown_maybe of.entry) begin offset) }
{
    let kinds = kinds_of_some(alloc, source, of)?;
    let done = offset.saturating_sub(begin) as usize;
    push_cleared(
        alloc,
        object,
        at,
        offset,
        kinds_past(kinds.as_slice(), done),
        out,
    )
}

fn type_of_part<'h>(
    context: Context<'h, '_>,
    of: Option<TypeRef<'h>>,
    index: usize,
) -> Option<TypeRef<'h>>
    ensures { shown_maybe result ≡ spec.type_of_part (context_of context.entry).known (shown_maybe of.entry) index }
{
    part_at(context.table, of, index)?
}

/// The part of the type that begins at the offset starts as this.
#[cycle(initials)]
fn push_started<'h>(
    alloc: Global,
    context: Context<'h, '_>,
    object: u32,
    at: Position,
    of: Option<TypeRef<'h>>,
    offset: u32,
    initial: &Initial,
    out: &mut List<Statement>,
) -> Result<(), AllocError>
    ensures { OnOk result (map stmt_of out.new ≡ map stmt_of out.old ++ spec.started (context_of context.entry) object at (shown_maybe of.entry) offset (init_of initial.now)) }
{
    match initial {
        Initial::Value(e) => {
            let value = wanted(alloc, context, kind_of_type(of), Target::No, e)?;
            push_stored(alloc, object, at, offset, value, out)
        }
        Initial::Braces { parts, .. } => {
            push_parts(
                alloc,
                context,
                object,
                at,
                of,
                offset,
                parts.as_slice(),
                out,
            )
        }
        Initial::Mutex { .. } | Initial::Cond { .. } | Initial::RwLock { .. } => Ok(()),
    }
}

/// The parts of the type that begins at the offset start as these.
#[cycle(initials)]
fn push_parts<'h>(
    alloc: Global,
    context: Context<'h, '_>,
    object: u32,
    at: Position,
    of: Option<TypeRef<'h>>,
    begin: u32,
    parts: &[Initial],
    out: &mut List<Statement>,
) -> Result<(), AllocError>
    ensures { OnOk result (map stmt_of out.new ≡ map stmt_of out.old ++ spec.parts_started (context_of context.entry) object at (shown_maybe of.entry) begin 0 begin (listed_inits (map init_of parts.now))) }
{
    let mut offset = begin;
    for (index, part) in parts.iter().enumerate() {
        let of_part = type_of_part(context, of, index);
        push_started(alloc, context, object, at, of_part, offset, part, out)?;
        offset = sum(offset, context.source.cells_of_some(of_part))?;
    }
    push_rest(alloc, context.source, object, at, of, begin, offset, out)
}

fn zero_word(alloc: Global, kind: WordKind, at: Position) -> Result<Box<Value>, AllocError>
    ensures { IfOk result (λ v. exp_of v.value ≡ spec.zero_word kind at) }
{
    match kind {
        WordKind::Pointer => make::null(alloc, at),
        WordKind::Number | WordKind::Function => make::number(alloc, 0, at),
    }
}

/// The word as which a register starts. Braces may stand round it.
fn first_word<'h>(
    alloc: Global,
    context: Context<'h, '_>,
    kind: WordKind,
    target: Target<'h>,
    at: Position,
    initial: &Initial,
) -> Result<Box<Value>, AllocError>
    ensures { IfOk result (λ v. exp_of v.value ≡ spec.first_word (context_of context.entry) kind (shown_target target.entry) at (init_of initial.now)) }
{
    match initial {
        Initial::Value(e) => wanted(alloc, context, kind, target, e),
        Initial::Braces { parts, .. } => match parts.as_slice() {
            [] => zero_word(alloc, kind, at),
            [first, ..] => first_word(alloc, context, kind, Target::No, at, first),
        },
        Initial::Mutex { .. } | Initial::Cond { .. } | Initial::RwLock { .. } => {
            zero_word(alloc, kind, at)
        }
    }
}

/// An object in cells starts as this.
fn push_object<'h>(
    alloc: Global,
    context: Context<'h, '_>,
    object: u32,
    of: Option<TypeRef<'h>>,
    initial: &Initial,
    at: Position,
    out: &mut List<Statement>,
) -> Result<(), AllocError>
    ensures { OnOk result (map stmt_of out.new ≡ map stmt_of out.old ++ spec.object_begun (context_of context.entry) object (shown_maybe of.entry) (init_of initial.now) at) }
{
    match initial {
        Initial::Value(e) => {
            let value = wanted(alloc, context, kind_of_type(of), value_target(of), e)?;
            let begin = make::object(alloc, object, at)?;
            let store = make::store(alloc, begin, value, at)?;
            out.push(Statement::Compute(Box::into_inner(store)))
        }
        Initial::Braces { parts, .. } => {
            push_parts(alloc, context, object, at, of, 0, parts.as_slice(), out)
        }
        Initial::Mutex { .. } | Initial::Cond { .. } | Initial::RwLock { .. } => Ok(()),
    }
}

/// A register starts as this.
fn push_register<'h>(
    alloc: Global,
    context: Context<'h, '_>,
    register: u32,
    of: Option<TypeRef<'h>>,
    initial: &Initial,
    at: Position,
    out: &mut List<Statement>,
) -> Result<(), AllocError>
    ensures { OnOk result (map stmt_of out.new ≡ map stmt_of out.old ++ core.compute (core.set_register register (spec.first_word (context_of context.entry) (kind_of_type (shown_maybe of.entry)) (value_target (shown_maybe of.entry)) at (init_of initial.now)) at) ∷ []) }
{
    let word = first_word(
        alloc,
        context,
        kind_of_type(of),
        value_target(of),
        at,
        initial,
    )?;
    let set = make::set_register(alloc, register, word, at)?;
    out.push(Statement::Compute(Box::into_inner(set)))
}

/// The local of the type that is kept there starts as this.
pub fn push_begun<'h>(
    alloc: Global,
    context: Context<'h, '_>,
    home: Option<Home>,
    of: &'h Option<ObjectType>,
    initial: &Initial,
    at: Position,
    out: &mut List<Statement>,
) -> Result<(), AllocError>
    ensures { OnOk result (map stmt_of out.new ≡ map stmt_of out.old ++ spec.begun (context_of context.entry) home of.now (init_of initial.now) at) }
{
    match home {
        None => Ok(()),
        Some(Home::Register(number)) => {
            push_register(alloc, context, number, ref_of(of), initial, at, out)
        }
        Some(Home::Object(number)) => {
            push_object(alloc, context, number, ref_of(of), initial, at, out)
        }
    }
}
