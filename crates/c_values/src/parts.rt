//! What stands for an expression whose operands are made, with what it is and the value that it has where it is constant (C99
//! 6.5, 6.6).
ghost use Rattle.std.specs.Prelude.{◌≡◌, true, IfOk, map};
ghost use Rattle.std.specs.Option.{option_map};
ghost use Rattle.c_tree.specs.Tree.{listed};
ghost use Rattle.c_tree.specs.View as tree;
ghost use Rattle.c_types.specs.Shown.{shown_maybe, shown_standing};
ghost use Rattle.c_types.specs.Library as names;
ghost use Rattle.c_types.specs.Scopes as scopes;
ghost use Rattle.c_types.specs.Standing as standings;
ghost use Rattle.c_types.specs.Operands.{as_value, binary_standing};
ghost use Rattle.core_tree.specs.View.{exp_of};
ghost use Rattle.c_operators.specs.Denoted.{denoted_value, operand_in, part_by, position_of, value_in};
ghost use Rattle.c_operators.specs.Constants.{no_constant, choice_constant, operation_constant, prefix_constant, cast_constant};
ghost use Rattle.c_operators.specs.Context as heres;
ghost use Rattle.c_operators.specs.Context.{offset_in};
ghost use Rattle.c_operators.specs.Operators.{arrow_in, assigned_in, binary_in, cast_in, conditional_in, index_in, member_in, prefix_in, stepped_in};
ghost use Rattle.c_operators.specs.Views.{denoted_of, context_of, maybe_word, part_of};
ghost use Rattle.c_values.specs.Calls as calls;
ghost use Rattle.c_values.specs.Expressions as spec;
ghost use Rattle.c_values.specs.Tails as tails;

use crate::calls::{function_called, library_called, pointer_called};
use crate::leaves::variable;
use c_operators::{
    Constant, Context, Denoted, Part, WordKind, arrow, assigned, binary, cast, conditional, index,
    is_pointing, make, member, prefix, site_at, stepped,
};
use c_rules::{following, let_go};
use c_tree::{AssignOp, BinaryOp, CType, Expr, Name, PrefixOp};
use c_types::{
    Meaning, Names, Operand, Standing, TypeRef, assign_standing, binary_standing, cast_standing,
    conditional_standing, index_standing, library_named, member_standing, pointed_struct,
    prefix_standing, struct_of, type_function, type_named,
};
use core_tree::Value;
use rr_base::{List, Position};
use std::alloc::{AllocError, Global};
use word_semantics::BinaryOp as FlowOp;

/// What is constant is its value.
fn folded(
    alloc: Global,
    constant: Constant,
    at: Position,
    denoted: Denoted,
) -> Result<Denoted, AllocError>
    ensures { IfOk result (λ h. denoted_of h ≡ spec.constant_by constant.is_formed constant.value at (denoted_of denoted)) }
{
    if !constant.is_formed {
        return Ok(denoted);
    }
    match constant.value {
        Ok(number) => {
            let value = make::number(alloc, number, at)?;
            Ok(Denoted::Value(value))
        }
        Err(_) => Ok(denoted),
    }
}

/// An expression that is its value where it is constant.
pub fn computed<'h>(
    alloc: Global,
    standing: Standing<'h>,
    constant: Constant,
    at: Position,
    denoted: Denoted,
) -> Result<Part<'h>, AllocError>
    ensures part { IfOk result (λ p. part_of p ≡ part_by (shown_standing standing.entry) (spec.constant_by constant.is_formed constant.value at (denoted_of denoted))) }
    ensures constant { IfOk result (λ p. p.constant ≡ constant) }
{
    let denoted = folded(alloc, constant, at, denoted)?;
    Ok(Part {
        standing,
        denoted,
        constant,
    })
}

/// An expression that is no constant.
pub fn changing<'h>(standing: Standing<'h>, denoted: Denoted) -> Part<'h>
    ensures part { part_of result ≡ part_by (shown_standing standing.entry) (denoted_of denoted) }
    ensures constant { result.constant ≡ no_constant }
{
    Part {
        standing,
        denoted,
        constant: Constant::none(),
    }
}

/// Whether a type is a pointer.
fn is_pointer_type(of: Option<TypeRef>) -> bool
    ensures { result ≡ spec.is_pointer_type (shown_maybe of.entry) }
{
    match of {
        None => false,
        Some(of) => is_pointing(Operand::of_type(of)),
    }
}

/// What the word of an object of the type is.
pub fn kind_of_type(of: Option<TypeRef>) -> WordKind
    ensures { result ≡ spec.kind_of_type (shown_maybe of.entry) }
{
    match of {
        None => WordKind::Number,
        Some(of) => WordKind::of(Operand::of_type(of)),
    }
}

/// What the last of several expressions is, with one more.
pub fn one_more<'h>(before: Option<Standing<'h>>, next: Standing<'h>) -> Standing<'h>
    ensures { shown_standing result ≡ tails.one_more (option_map shown_standing before.entry) (shown_standing next.entry) }
{
    match before {
        None => next,
        Some(before) => following(before, next),
    }
}

/// What the last of those after an expression is, if any.
fn past_first<'h>(first: Standing<'h>, last: Option<Standing<'h>>) -> Standing<'h>
    ensures { shown_standing result ≡ tails.past_first (shown_standing first.entry) (option_map shown_standing last.entry) }
{
    match last {
        None => first,
        Some(last) => following(first, last),
    }
}

/// An expression with others after it, the last of which is `last`.
pub fn sequence<'h>(
    alloc: Global,
    first: Part<'h>,
    tail: Option<Box<Value>>,
    last: Option<Standing<'h>>,
    at: Position,
) -> Result<Part<'h>, AllocError>
    ensures part { IfOk result (λ p. part_of p ≡ part_by (as_value (tails.past_first (standings.let_go (part_of first.entry).standing) (option_map shown_standing last.entry))) (denoted_value (spec.with_tail (value_in (part_of first.entry)) (maybe_word tail) at))) }
    ensures constant { IfOk result (λ p. p.constant ≡ no_constant) }
{
    let last = past_first(let_go(first.standing), last);
    let first = first.into_value(alloc)?;
    let value = match tail {
        None => first,
        Some(tail) => make::comma(alloc, first, tail, at)?,
    };
    Ok(changing(last.as_value(), Denoted::Value(value)))
}

/// An assignment of which the sides are made.
pub fn assignment<'h>(
    alloc: Global,
    context: Context,
    op: AssignOp,
    left: Part<'h>,
    right: Part<'h>,
    at: Position,
) -> Result<Part<'h>, AllocError>
    ensures part { IfOk result (λ p. part_of p ≡ part_by (standings.assign_standing op (part_of left.entry).standing (operand_in (part_of right.entry))) (denoted_value (assigned_in (context_of context.entry).source op (part_of left.entry) (part_of right.entry) at))) }
    ensures constant { IfOk result (λ p. p.constant ≡ no_constant) }
{
    let standing = assign_standing(op, left.standing, right.operand());
    let value = assigned(alloc, context.source, op, left, right, at)?;
    Ok(changing(standing, Denoted::Value(value)))
}

/// `?:`, whose operands are made.
pub fn choice<'h>(
    alloc: Global,
    test: Part<'h>,
    yes: Part<'h>,
    no: Part<'h>,
    at: Position,
) -> Result<Part<'h>, AllocError>
    ensures part { let k = choice_constant test.entry.constant yes.entry.constant no.entry.constant in IfOk result (λ p. part_of p ≡ part_by (standings.conditional_standing (operand_in (part_of test.entry)) (operand_in (part_of yes.entry)) (operand_in (part_of no.entry))) (spec.constant_by k.is_formed k.value at (denoted_value (conditional_in (part_of test.entry) (part_of yes.entry) (part_of no.entry) at)))) }
    ensures constant { IfOk result (λ p. p.constant ≡ choice_constant test.entry.constant yes.entry.constant no.entry.constant) }
{
    let standing = conditional_standing(test.operand(), yes.operand(), no.operand());
    let constant = Constant::of_choice(test.constant, yes.constant, no.constant);
    let value = conditional(alloc, test, yes, no, at)?;
    computed(alloc, standing, constant, at, Denoted::Value(value))
}

/// An operator with two operands, which are made.
pub fn operation<'h>(
    alloc: Global,
    context: Context,
    op: BinaryOp,
    left: Part<'h>,
    right: Part<'h>,
    at: Position,
) -> Result<Part<'h>, AllocError>
    ensures part { let k = operation_constant op left.entry.constant right.entry.constant in IfOk result (λ p. part_of p ≡ part_by (binary_standing op (operand_in (part_of left.entry)) (operand_in (part_of right.entry))) (spec.constant_by k.is_formed k.value at (denoted_value (binary_in (context_of context.entry).source op (part_of left.entry) (part_of right.entry) at)))) }
    ensures constant { IfOk result (λ p. p.constant ≡ operation_constant op left.entry.constant right.entry.constant) }
{
    let standing = binary_standing(op, left.operand(), right.operand());
    let constant = Constant::of_operation(op, left.constant, right.constant);
    let value = binary(alloc, context.source, op, left, right, at)?;
    computed(alloc, standing, constant, at, Denoted::Value(value))
}

/// An operator before its operand, which is made.
pub fn prefixing<'h>(
    alloc: Global,
    context: Context,
    op: PrefixOp,
    operand: Part<'h>,
    at: Position,
) -> Result<Part<'h>, AllocError>
    ensures part { let p = part_of operand.entry in let k = prefix_constant op operand.entry.constant in IfOk result (λ r. part_of r ≡ part_by (standings.prefix_standing op p.standing) (spec.constant_by k.is_formed k.value at (prefix_in (context_of context.entry).source op p at))) }
    ensures constant { IfOk result (λ r. r.constant ≡ prefix_constant op operand.entry.constant) }
{
    let standing = prefix_standing(op, operand.standing);
    let constant = Constant::of_prefix(op, operand.constant);
    let denoted = prefix(alloc, context.source, op, operand, at)?;
    computed(alloc, standing, constant, at, denoted)
}

/// A cast of what is made.
pub fn casting<'h>(
    alloc: Global,
    context: Context<'h, '_>,
    to: &CType,
    operand: Part<'h>,
    at: Position,
) -> Result<Part<'h>, AllocError>
    ensures part { let named = scopes.type_named (context_of context.entry).known to.now in let p = part_of operand.entry in let k = cast_constant to.now operand.entry.constant in IfOk result (λ r. part_of r ≡ part_by (standings.cast_standing named to.now.stars (operand_in p)) (spec.constant_by k.is_formed k.value at (denoted_value (cast_in (spec.is_pointer_type named) p at)))) }
    ensures constant { IfOk result (λ r. r.constant ≡ cast_constant to.now operand.entry.constant) }
{
    let named = type_named(context.table, to);
    let standing = cast_standing(named, to.stars, operand.operand());
    let constant = Constant::of_cast(to, operand.constant);
    let value = cast(alloc, is_pointer_type(named), operand, at)?;
    computed(alloc, standing, constant, at, Denoted::Value(value))
}

/// An element of an array, of which the base and the index are made.
pub fn element<'h>(
    alloc: Global,
    context: Context,
    base: Part<'h>,
    by: Part<'h>,
    at: Position,
) -> Result<Part<'h>, AllocError>
    ensures part { IfOk result (λ p. part_of p ≡ part_by (standings.index_standing (operand_in (part_of base.entry)) (operand_in (part_of by.entry))) (index_in (context_of context.entry).source (part_of base.entry) (part_of by.entry) at)) }
    ensures constant { IfOk result (λ p. p.constant ≡ no_constant) }
{
    let standing = index_standing(base.operand(), by.operand());
    let denoted = index(alloc, context.source, base, by, at)?;
    Ok(changing(standing, denoted))
}

/// A member of a struct that is made.
pub fn member_in_part<'h>(
    alloc: Global,
    context: Context<'h, '_>,
    name: &Name,
    base: Part<'h>,
    at: Position,
) -> Result<Part<'h>, AllocError>
    ensures part { let h = context_of context.entry in let p = part_of base.entry in let number = standings.struct_of p.standing in IfOk result (λ r. part_of r ≡ part_by (standings.member_standing h.known number name.now.text) (member_in p.denoted (offset_in h.source number name.now.text) at)) }
    ensures constant { IfOk result (λ r. r.constant ≡ no_constant) }
{
    let number = struct_of(base.standing);
    let by = context.source.offset_in(number, name.text.as_slice())?;
    let denoted = member(alloc, base.denoted, by, at)?;
    Ok(changing(
        member_standing(context.table, number, name.text.as_slice()),
        denoted,
    ))
}

/// A member of a struct to which a pointer is made.
pub fn member_through<'h>(
    alloc: Global,
    context: Context<'h, '_>,
    name: &Name,
    base: Part<'h>,
    at: Position,
) -> Result<Part<'h>, AllocError>
    ensures part { let h = context_of context.entry in let p = part_of base.entry in let number = standings.pointed_struct (operand_in p) in IfOk result (λ r. part_of r ≡ part_by (standings.member_standing h.known number name.now.text) (arrow_in p (offset_in h.source number name.now.text) at)) }
    ensures constant { IfOk result (λ r. r.constant ≡ no_constant) }
{
    let number = pointed_struct(base.operand());
    let by = context.source.offset_in(number, name.text.as_slice())?;
    let denoted = arrow(alloc, base, by, at)?;
    Ok(changing(
        member_standing(context.table, number, name.text.as_slice()),
        denoted,
    ))
}

/// `++` and `--` after what is made.
pub fn stepping<'h>(
    alloc: Global,
    context: Context,
    op: FlowOp,
    place: Part<'h>,
    at: Position,
) -> Result<Part<'h>, AllocError>
    ensures part { let p = part_of place.entry in IfOk result (λ r. part_of r ≡ part_by (standings.stepped p.standing) (denoted_value (stepped_in (context_of context.entry).source op p true at))) }
    ensures constant { IfOk result (λ r. r.constant ≡ no_constant) }
{
    let standing = c_types::stepped(place.standing);
    let value = stepped(alloc, context.source, op, place, true, at)?;
    Ok(changing(standing, Denoted::Value(value)))
}

/// The word that a variable holds.
fn held_word(
    alloc: Global,
    context: Context,
    name: &[u8],
    of: Option<TypeRef>,
    at: Position,
) -> Result<Box<Value>, AllocError>
    ensures { IfOk result (λ v. exp_of v.value ≡ spec.held_word (context_of context.entry) name.now (shown_maybe of.entry) at) }
{
    match of {
        None => make::number(alloc, 0, at),
        Some(of) => {
            let denoted = variable(alloc, context, name, at)?;
            denoted.into_value(alloc, Standing::Place(of))
        }
    }
}

/// The number of the functions' type, where a variable points to functions.
fn function_held(of: Option<TypeRef>) -> Option<usize>
    ensures { result ≡ spec.function_held (shown_maybe of.entry) }
{
    type_function(of?)
}

/// A call through a variable, of which the operands are made.
fn variable_called(
    alloc: Global,
    context: Context,
    name: &[u8],
    of: Option<TypeRef>,
    operands: List<Value>,
    at: Position,
) -> Result<Box<Value>, AllocError>
    ensures { let h = context_of context.entry in let t = shown_maybe of.entry in IfOk result (λ v. exp_of v.value ≡ calls.pointer_called h.known (spec.function_held t) (spec.held_word h name.now t at) (map exp_of operands) at) }
{
    let held = held_word(alloc, context, name, of, at)?;
    pointer_called(alloc, context.table, function_held(of), held, operands, at)
}

/// A call of the library, of which the operands are made.
fn library_call(
    alloc: Global,
    context: Context,
    name: &[u8],
    es: &[Expr],
    operands: List<Value>,
    at: Position,
) -> Result<Box<Value>, AllocError>
    ensures { let h = context_of context.entry in IfOk result (λ v. exp_of v.value ≡ calls.library_called h.known (heres.site_at h.source.sites at) (names.library_named name.now) (listed (map tree.exp_of es.now)) (map exp_of operands) at) }
{
    let site = site_at(context.source.sites, at)?;
    let call = library_named(name);
    library_called(alloc, context.table, site, call, es, operands, at)
}

/// A call of which the operands are made.
fn called(
    alloc: Global,
    context: Context,
    name: &[u8],
    es: &[Expr],
    operands: List<Value>,
    at: Position,
) -> Result<Box<Value>, AllocError>
    ensures { let h = context_of context.entry in IfOk result (λ v. exp_of v.value ≡ spec.called h name.now (scopes.seen h.known name.now) (listed (map tree.exp_of es.now)) (map exp_of operands) at) }
{
    match context.table.seen(name) {
        Some(Meaning::Function(signature)) => {
            function_called(alloc, context.table, name, signature, operands, at)
        }
        Some(Meaning::Variable(of)) => variable_called(alloc, context, name, of, operands, at),
        None => library_call(alloc, context, name, es, operands, at),
    }
}

/// What stands for a call of which the operands are made.
pub fn call_denoted(
    alloc: Global,
    context: Context,
    name: &[u8],
    es: &[Expr],
    operands: List<Value>,
    at: Position,
) -> Result<Denoted, AllocError>
    ensures { let h = context_of context.entry in IfOk result (λ r. denoted_of r ≡ denoted_value (spec.called h name.now (scopes.seen h.known name.now) (listed (map tree.exp_of es.now)) (map exp_of operands) (position_of at))) }
{
    let value = called(alloc, context, name, es, operands, at)?;
    Ok(Denoted::Value(value))
}
