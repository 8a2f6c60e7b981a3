//! The core tree of an expression (C99 6.5). Its calls stay out of line, so that a level of nesting takes little of the stack.
ghost use Rattle.std.specs.Prelude.{◌≡◌, [], true, IfOk, None, map};
ghost use Rattle.std.specs.Option.{option_map};
ghost use Rattle.c_tree.specs.Tree.{listed};
ghost use Rattle.c_tree.specs.Tree as trees;
ghost use Rattle.c_tree.specs.View as tree;
ghost use Rattle.c_types.specs.Shown.{shown_standing, shown_target, shown_wants};
ghost use Rattle.c_types.specs.Scopes as scopes;
ghost use Rattle.c_types.specs.Standing as standings;
ghost use Rattle.c_types.specs.Operands.{as_value, binary_standing};
ghost use Rattle.c_types.specs.Standing.{no_target};
ghost use Rattle.c_rules.specs.Faults as faults;
ghost use Rattle.core_tree.specs.View.{exp_of};
ghost use Rattle.c_operators.specs.Denoted.{denoted_value, operand_in, part_by, position_of, value_in};
ghost use Rattle.c_operators.specs.Constants.{constant_of, no_constant, choice_constant, operation_constant, prefix_constant, cast_constant};
ghost use Rattle.c_operators.specs.Context.{offset_in};
ghost use Rattle.c_operators.specs.Operators.{arrow_in, assigned_in, binary_in, cast_in, conditional_in, index_in, member_in, prefix_in, stepped_in};
ghost use Rattle.c_operators.specs.Views.{context_of, maybe_word, part_of};
ghost use Rattle.c_values.specs.Expressions as spec;
ghost use Rattle.c_values.specs.Tails as tails;

use crate::calls::push_argument;
use crate::leaves::{letter_part, name_part, null_part, number_part, size_part, text_part};
use crate::parts::{
    assignment, call_denoted, casting, changing, choice, element, member_in_part, member_through,
    one_more, operation, prefixing, sequence, stepping,
};
use c_operators::{Context, Part, WordKind, joined, push_last};
use c_rules::{call_standing, fits_wanted, format_of, given_by_call, let_go, own_place, wants_of};
use c_tree::{AssignOp, BinaryOp, CType, Expr, Name, PrefixOp};
use c_types::{Names, Standing, Target, Wants, assigned_target, cast_target, type_named};
use core_tree::Value;
use rr_base::{List, Position};
use std::alloc::{AllocError, Global};
use word_semantics::BinaryOp as FlowOp;

/// The place of an expression.
fn place_of(e: &Expr) -> Position
    ensures { result ≡ position_of (faults.own_place (tree.exp_of e.now)) }
{
    own_place(e)
}

/// An expression with what it is, where `target` is what a `malloc` in its place makes an object of.
#[cycle(expression)]
fn part<'h>(
    alloc: Global,
    context: Context<'h, '_>,
    target: Target<'h>,
    e: &Expr,
) -> Result<Part<'h>, AllocError>
    ensures part { IfOk result (λ p. part_of p ≡ spec.part (context_of context.entry) (shown_target target.entry) (tree.exp_of e.now)) }
    ensures constant { IfOk result (λ p. p.constant ≡ constant_of (context_of context.entry).known (tree.exp_of e.now)) }
{
    let at = place_of(e);
    match e {
        Expr::Comma { first, rest, .. } => {
            let (tail, last) = tail_of(alloc, context, rest.as_slice(), at)?;
            before_tail(alloc, context, first, tail, last, at)
        }
        Expr::Assign {
            left,
            op,
            right,
            ..
        } => {
            let left = part(alloc, context, Target::No, left)?;
            assigned_to(alloc, context, right, *op, left, at)
        }
        Expr::Conditional { test, yes, no, .. } => {
            let test = part(alloc, context, Target::No, test)?;
            let yes = part(alloc, context, Target::No, yes)?;
            chosen(alloc, context, no, test, yes, at)
        }
        Expr::Binary {
            left,
            op,
            right,
            ..
        } => {
            let left = part(alloc, context, Target::No, left)?;
            operated(alloc, context, right, *op, left, at)
        }
        Expr::Index {
            base,
            index: by,
            ..
        } => {
            let base = part(alloc, context, Target::No, base)?;
            indexed(alloc, context, by, base, at)
        }
        Expr::Prefix { op, operand, .. } => prefixed(alloc, context, operand, *op, at),
        Expr::Cast { to, operand, .. } => cast_to(alloc, context, operand, to, at),
        Expr::Member { base, name, .. } => member_of(alloc, context, base, name, at),
        Expr::Arrow { base, name, .. } => pointed_member(alloc, context, base, name, at),
        Expr::PostIncrement { operand, .. } => post(alloc, context, operand, FlowOp::Add, at),
        Expr::PostDecrement { operand, .. } => post(alloc, context, operand, FlowOp::Subtract, at),
        Expr::Paren { inner, .. } => part(alloc, context, target, inner),
        Expr::Call {
            name,
            arguments,
            ..
        } => call_of(
            alloc,
            context,
            target,
            name.as_slice(),
            arguments.as_slice(),
            at,
        ),
        Expr::Name { name, .. } => name_part(alloc, context, e, name.as_slice(), at),
        Expr::SizeofExpr { .. } => size_part(alloc, context, e, at),
        Expr::SizeofType { .. } => size_part(alloc, context, e, at),
        Expr::Number { value, .. } => number_part(alloc, context, e, *value, at),
        Expr::Letter { value, .. } => letter_part(alloc, context, e, *value, at),
        Expr::Text { .. } => Ok(text_part(context, e, at)),
        Expr::Null { .. } => Ok(null_part(context, e, at)),
    }
}

/// An expression before others, which are made.
#[cycle(expression)]
#[inline(never)]
fn before_tail<'h>(
    alloc: Global,
    context: Context<'h, '_>,
    first: &Expr,
    tail: Option<Box<Value>>,
    last: Option<Standing<'h>>,
    at: Position,
) -> Result<Part<'h>, AllocError>
    ensures part { let h = context_of context.entry in let p = spec.part h no_target (tree.exp_of first.now) in IfOk result (λ r. part_of r ≡ part_by (as_value (tails.past_first (standings.let_go p.standing) (option_map shown_standing last.entry))) (denoted_value (spec.with_tail (value_in p) (maybe_word tail) at))) }
    ensures constant { IfOk result (λ r. r.constant ≡ no_constant) }
{
    let first = part(alloc, context, Target::No, first)?;
    sequence(alloc, first, tail, last, at)
}

/// An assignment to a place that is made.
#[cycle(expression)]
#[inline(never)]
fn assigned_to<'h>(
    alloc: Global,
    context: Context<'h, '_>,
    right: &Expr,
    op: AssignOp,
    left: Part<'h>,
    at: Position,
) -> Result<Part<'h>, AllocError>
    ensures part { let h = context_of context.entry in let l = part_of left.entry in let p = spec.part h (standings.assigned_target op l.standing) (tree.exp_of right.now) in IfOk result (λ r. part_of r ≡ part_by (standings.assign_standing op l.standing (operand_in p)) (denoted_value (assigned_in h.source op l p at))) }
    ensures constant { IfOk result (λ r. r.constant ≡ no_constant) }
{
    let right = part(alloc, context, assigned_target(op, left.standing), right)?;
    assignment(alloc, context, op, left, right, at)
}

/// `?:`, of which the last operand is left.
#[cycle(expression)]
#[inline(never)]
fn chosen<'h>(
    alloc: Global,
    context: Context<'h, '_>,
    no: &Expr,
    test: Part<'h>,
    yes: Part<'h>,
    at: Position,
) -> Result<Part<'h>, AllocError>
    ensures part { let h = context_of context.entry in let p = spec.part h no_target (tree.exp_of no.now) in let k = choice_constant test.entry.constant yes.entry.constant (constant_of h.known (tree.exp_of no.now)) in IfOk result (λ r. part_of r ≡ part_by (standings.conditional_standing (operand_in (part_of test.entry)) (operand_in (part_of yes.entry)) (operand_in p)) (spec.constant_by k.is_formed k.value at (denoted_value (conditional_in (part_of test.entry) (part_of yes.entry) p at)))) }
    ensures constant { IfOk result (λ r. r.constant ≡ choice_constant test.entry.constant yes.entry.constant (constant_of (context_of context.entry).known (tree.exp_of no.now))) }
{
    let no = part(alloc, context, Target::No, no)?;
    choice(alloc, test, yes, no, at)
}

/// An operator of which the second operand is left.
#[cycle(expression)]
#[inline(never)]
fn operated<'h>(
    alloc: Global,
    context: Context<'h, '_>,
    right: &Expr,
    op: BinaryOp,
    left: Part<'h>,
    at: Position,
) -> Result<Part<'h>, AllocError>
    ensures part { let h = context_of context.entry in let p = spec.part h no_target (tree.exp_of right.now) in let k = operation_constant op left.entry.constant (constant_of h.known (tree.exp_of right.now)) in IfOk result (λ r. part_of r ≡ part_by (binary_standing op (operand_in (part_of left.entry)) (operand_in p)) (spec.constant_by k.is_formed k.value at (denoted_value (binary_in h.source op (part_of left.entry) p at)))) }
    ensures constant { IfOk result (λ r. r.constant ≡ operation_constant op left.entry.constant (constant_of (context_of context.entry).known (tree.exp_of right.now))) }
{
    let right = part(alloc, context, Target::No, right)?;
    operation(alloc, context, op, left, right, at)
}

/// An element of what is made.
#[cycle(expression)]
#[inline(never)]
fn indexed<'h>(
    alloc: Global,
    context: Context<'h, '_>,
    by: &Expr,
    base: Part<'h>,
    at: Position,
) -> Result<Part<'h>, AllocError>
    ensures part { let h = context_of context.entry in let p = spec.part h no_target (tree.exp_of by.now) in IfOk result (λ r. part_of r ≡ part_by (standings.index_standing (operand_in (part_of base.entry)) (operand_in p)) (index_in h.source (part_of base.entry) p at)) }
    ensures constant { IfOk result (λ r. r.constant ≡ no_constant) }
{
    let by = part(alloc, context, Target::No, by)?;
    element(alloc, context, base, by, at)
}

/// An operator before its operand.
#[cycle(expression)]
#[inline(never)]
fn prefixed<'h>(
    alloc: Global,
    context: Context<'h, '_>,
    operand: &Expr,
    op: PrefixOp,
    at: Position,
) -> Result<Part<'h>, AllocError>
    ensures part { let h = context_of context.entry in let p = spec.part h no_target (tree.exp_of operand.now) in let k = prefix_constant op (constant_of h.known (tree.exp_of operand.now)) in IfOk result (λ r. part_of r ≡ part_by (standings.prefix_standing op p.standing) (spec.constant_by k.is_formed k.value at (prefix_in h.source op p at))) }
    ensures constant { IfOk result (λ r. r.constant ≡ prefix_constant op (constant_of (context_of context.entry).known (tree.exp_of operand.now))) }
{
    let operand = part(alloc, context, Target::No, operand)?;
    prefixing(alloc, context, op, operand, at)
}

/// A cast.
#[cycle(expression)]
#[inline(never)]
fn cast_to<'h>(
    alloc: Global,
    context: Context<'h, '_>,
    operand: &Expr,
    to: &CType,
    at: Position,
) -> Result<Part<'h>, AllocError>
    ensures part { let h = context_of context.entry in let named = scopes.type_named h.known to.now in let p = spec.part h (standings.cast_target named to.now.stars) (tree.exp_of operand.now) in let k = cast_constant to.now (constant_of h.known (tree.exp_of operand.now)) in IfOk result (λ r. part_of r ≡ part_by (standings.cast_standing named to.now.stars (operand_in p)) (spec.constant_by k.is_formed k.value at (denoted_value (cast_in (spec.is_pointer_type named) p at)))) }
    ensures constant { IfOk result (λ r. r.constant ≡ cast_constant to.now (constant_of (context_of context.entry).known (tree.exp_of operand.now))) }
{
    let target = cast_target(type_named(context.table, to), to.stars);
    let operand = part(alloc, context, target, operand)?;
    casting(alloc, context, to, operand, at)
}

/// A member of a struct.
#[cycle(expression)]
#[inline(never)]
fn member_of<'h>(
    alloc: Global,
    context: Context<'h, '_>,
    base: &Expr,
    name: &Name,
    at: Position,
) -> Result<Part<'h>, AllocError>
    ensures part { let h = context_of context.entry in let p = spec.part h no_target (tree.exp_of base.now) in let number = standings.struct_of p.standing in IfOk result (λ r. part_of r ≡ part_by (standings.member_standing h.known number name.now.text) (member_in p.denoted (offset_in h.source number name.now.text) at)) }
    ensures constant { IfOk result (λ r. r.constant ≡ no_constant) }
{
    let base = part(alloc, context, Target::No, base)?;
    member_in_part(alloc, context, name, base, at)
}

/// A member of a struct to which a pointer is given.
#[cycle(expression)]
#[inline(never)]
fn pointed_member<'h>(
    alloc: Global,
    context: Context<'h, '_>,
    base: &Expr,
    name: &Name,
    at: Position,
) -> Result<Part<'h>, AllocError>
    ensures part { let h = context_of context.entry in let p = spec.part h no_target (tree.exp_of base.now) in let number = standings.pointed_struct (operand_in p) in IfOk result (λ r. part_of r ≡ part_by (standings.member_standing h.known number name.now.text) (arrow_in p (offset_in h.source number name.now.text) at)) }
    ensures constant { IfOk result (λ r. r.constant ≡ no_constant) }
{
    let base = part(alloc, context, Target::No, base)?;
    member_through(alloc, context, name, base, at)
}

/// `++` and `--` after their operand.
#[cycle(expression)]
#[inline(never)]
fn post<'h>(
    alloc: Global,
    context: Context<'h, '_>,
    operand: &Expr,
    op: FlowOp,
    at: Position,
) -> Result<Part<'h>, AllocError>
    ensures part { let h = context_of context.entry in let p = spec.part h no_target (tree.exp_of operand.now) in IfOk result (λ r. part_of r ≡ part_by (standings.stepped p.standing) (denoted_value (stepped_in h.source op p true at))) }
    ensures constant { IfOk result (λ r. r.constant ≡ no_constant) }
{
    let place = part(alloc, context, Target::No, operand)?;
    stepping(alloc, context, op, place, at)
}

/// Expressions with commas between them, after a first one: each is computed. Nothing where there is none. With what the
/// last is.
#[cycle(expression)]
#[inline(never)]
fn tail_of<'h>(
    alloc: Global,
    context: Context<'h, '_>,
    es: &[Expr],
    at: Position,
) -> Result<(Option<Box<Value>>, Option<Standing<'h>>), AllocError>
    ensures value { IfOk result (λ r. maybe_word r.0 ≡ spec.tail_of (context_of context.entry) (listed (map tree.exp_of es.now)) [] at) }
    ensures last { IfOk result (λ r. option_map shown_standing r.1 ≡ tails.all_past (context_of context.entry).known None (listed (map tree.exp_of es.now))) }
{
    let mut so_far = List::new(alloc);
    let mut last = None;
    for e in es {
        let next = part(alloc, context, Target::No, e)?;
        let met = one_more(last, let_go(next.standing));
        last = Some(met);
        let next = next.into_value(alloc)?;
        push_last(alloc, &mut so_far, next, at)?;
    }
    let tail = joined(alloc, so_far, at)?;
    Ok((tail, last))
}

/// The operands of a call, each as it is wanted, and whether they fit.
#[cycle(expression)]
#[inline(never)]
fn arguments(
    alloc: Global,
    context: Context,
    wanted: Wants,
    es: &[Expr],
) -> Result<(List<Value>, bool), AllocError>
    ensures values { IfOk result (λ r. map exp_of r.0 ≡ spec.arguments (context_of context.entry) (shown_wants wanted.entry) (listed (map tree.exp_of es.now))) }
    ensures fit { IfOk result (λ r. r.1 ≡ standings.fit_wanted (context_of context.entry).known (shown_wants wanted.entry) (listed (map tree.exp_of es.now))) }
{
    let mut wants = wanted;
    let mut fit = true;
    let mut out = List::new(alloc);
    for e in es {
        match wants.next() {
            None => return Ok((out, false)),
            Some((next, others)) => {
                let operand = part(alloc, context, Target::No, e)?;
                fit &= fits_wanted(context.table, next, e, operand.standing);
                push_argument(alloc, next, operand, &mut out)?;
                wants = others;
            }
        }
    }
    Ok((out, fit && wants.next().is_none()))
}

/// A call.
#[cycle(expression)]
#[inline(never)]
fn call_of<'h>(
    alloc: Global,
    context: Context<'h, '_>,
    target: Target<'h>,
    name: &[u8],
    es: &[Expr],
    at: Position,
) -> Result<Part<'h>, AllocError>
    ensures part { IfOk result (λ p. part_of p ≡ spec.part (context_of context.entry) (shown_target target.entry) (trees.call name.now (listed (map tree.exp_of es.now)) at)) }
    ensures constant { IfOk result (λ p. p.constant ≡ no_constant) }
{
    let format = format_of(es);
    let wants = wants_of(context.table, name, format);
    let (operands, fit) = arguments(alloc, context, wants, es)?;
    let denoted = call_denoted(alloc, context, name, es, operands, at)?;
    let gives = given_by_call(context.table, target, name, format);
    Ok(changing(call_standing(gives, fit), denoted))
}

/// The word of an expression.
pub fn value(alloc: Global, context: Context, e: &Expr) -> Result<Box<Value>, AllocError>
    ensures { IfOk result (λ v. exp_of v.value ≡ spec.value_of (context_of context.entry) (tree.exp_of e.now)) }
{
    let part = part(alloc, context, Target::No, e)?;
    part.into_value(alloc)
}

/// The word of an expression where one of the kind is wanted.
pub fn wanted<'h>(
    alloc: Global,
    context: Context<'h, '_>,
    kind: WordKind,
    target: Target<'h>,
    e: &Expr,
) -> Result<Box<Value>, AllocError>
    ensures { IfOk result (λ v. exp_of v.value ≡ spec.wanted_of (context_of context.entry) kind (shown_target target.entry) (tree.exp_of e.now)) }
{
    let part = part(alloc, context, target, e)?;
    part.into_wanted(alloc, kind)
}
