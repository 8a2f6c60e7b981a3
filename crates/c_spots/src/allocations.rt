//! The calls of `malloc` in expressions, each with what it is to make an object of (C99 7.20.3.3).
ghost use Rattle.std.specs.Prelude.{◌≡◌, ◌++◌, OnOk, map};
ghost use Rattle.c_tree.specs.Tree.{listed, listed_inits};
ghost use Rattle.c_tree.specs.View.{exp_of, maybe_of, declared_of, init_of, fields_of};
ghost use Rattle.c_spots.specs.Spots as spec;
ghost use Rattle.c_spots.specs.SpotViews.{shown_spots};
ghost use Rattle.c_types.specs.Shown.{shown_target};
ghost use Rattle.c_types.specs.Scopes.{type_named};
ghost use Rattle.c_types.specs.Standing.{no_target, standing, assigned_target, cast_target};

use crate::spot::{Spot, push_allocation};
use c_rules::judge;
use c_tree::{AssignOp, CType, Declarator, Expr, Initial, Member};
use c_types::{
    LibraryName, Names, Target, assigned_target, cast_target, library_named, type_named,
};
use rr_base::List;
use std::alloc::{AllocError, Global};

fn is_malloc_call(call: Option<LibraryName>) -> bool
    ensures { result ≡ spec.is_malloc_call call }
{
    matches!(call, Some(LibraryName::Malloc))
}

/// Whether the name is that of the library's `malloc` here.
fn is_malloc<N: Names>(names: &N, name: &[u8]) -> bool
    ensures { result ≡ spec.is_malloc (N.known names.now) name.now }
{
    match names.seen(name) {
        Some(_) => false,
        None => is_malloc_call(library_named(name)),
    }
}

/// What the right side of an assignment is to make an object of.
fn right_target<'a, N: Names>(names: &'a N, op: AssignOp, left: &Expr) -> Target<'a>
    ensures { shown_target result ≡ assigned_target op (standing (N.known names.now) no_target (exp_of left.now)) }
{
    let mut ignored = None;
    let of = judge(names, Target::No, left, &mut ignored);
    assigned_target(op, of)
}

/// What the operand of a cast is to make an object of.
fn operand_target<'a, N: Names>(names: &'a N, to: &CType) -> Target<'a>
    ensures { shown_target result ≡ cast_target (type_named (N.known names.now) to.now) to.now.stars }
{
    cast_target(type_named(names, to), to.stars)
}

/// Where `target` is what a `malloc` in the expression's place makes an object of.
#[cycle(allocations)]
pub fn push_allocations<N: Names>(
    alloc: Global,
    names: &N,
    target: Target,
    e: &Expr,
    out: &mut List<Spot>,
) -> Result<(), AllocError>
    ensures { OnOk result (shown_spots out.new ≡ shown_spots out.old ++ spec.allocations (N.known names.now) (shown_target target.entry) (exp_of e.now)) }
{
    match e {
        Expr::Comma { first, rest, .. } => {
            push_allocations(alloc, names, Target::No, first, out)?;
            push_all_allocations(alloc, names, rest.as_slice(), out)
        }
        Expr::Assign {
            left,
            op,
            right,
            ..
        } => {
            push_allocations(alloc, names, Target::No, left, out)?;
            let target = right_target(names, *op, left);
            push_allocations(alloc, names, target, right, out)
        }
        Expr::Conditional { test, yes, no, .. } => {
            push_allocations(alloc, names, Target::No, test, out)?;
            push_allocations(alloc, names, Target::No, yes, out)?;
            push_allocations(alloc, names, Target::No, no, out)
        }
        Expr::Binary { left, right, .. } => {
            push_allocations(alloc, names, Target::No, left, out)?;
            push_allocations(alloc, names, Target::No, right, out)
        }
        Expr::Cast { to, operand, .. } => {
            let target = operand_target(names, to);
            push_allocations(alloc, names, target, operand, out)
        }
        Expr::Index { base, index, .. } => {
            push_allocations(alloc, names, Target::No, base, out)?;
            push_allocations(alloc, names, Target::No, index, out)
        }
        Expr::Call {
            name,
            arguments,
            at,
        } => {
            let is_malloc = is_malloc(names, name.as_slice());
            push_allocation(alloc, is_malloc, target, *at, out)?;
            push_all_allocations(alloc, names, arguments.as_slice(), out)
        }
        Expr::Paren { inner, .. } => push_allocations(alloc, names, target, inner, out),
        Expr::Prefix { operand, .. } => { push_allocations(alloc, names, Target::No, operand, out) }
        Expr::SizeofExpr { operand, .. } => {
            push_allocations(alloc, names, Target::No, operand, out)
        }
        Expr::Member { base, .. } => push_allocations(alloc, names, Target::No, base, out),
        Expr::Arrow { base, .. } => push_allocations(alloc, names, Target::No, base, out),
        Expr::PostIncrement { operand, .. } => {
            push_allocations(alloc, names, Target::No, operand, out)
        }
        Expr::PostDecrement { operand, .. } => {
            push_allocations(alloc, names, Target::No, operand, out)
        }
        Expr::SizeofType { .. }
        | Expr::Name { .. }
        | Expr::Number { .. }
        | Expr::Letter { .. }
        | Expr::Text { .. }
        | Expr::Null { .. } => Ok(()),
    }
}

#[cycle(allocations)]
fn push_all_allocations<N: Names>(
    alloc: Global,
    names: &N,
    es: &[Expr],
    out: &mut List<Spot>,
) -> Result<(), AllocError>
    ensures { OnOk result (shown_spots out.new ≡ shown_spots out.old ++ spec.all_allocations (N.known names.now) (listed (map exp_of es.now))) }
{
    for e in es {
        push_allocations(alloc, names, Target::No, e, out)?;
    }
    Ok(())
}

/// Those in an expression, if there is one.
pub fn push_maybe_allocations<N: Names>(
    alloc: Global,
    names: &N,
    e: &Option<Expr>,
    out: &mut List<Spot>,
) -> Result<(), AllocError>
    ensures { OnOk result (shown_spots out.new ≡ shown_spots out.old ++ spec.maybe_allocations (N.known names.now) (maybe_of e.now)) }
{
    match e {
        None => Ok(()),
        Some(e) => push_allocations(alloc, names, Target::No, e, out),
    }
}

/// Those in the lengths of arrays.
pub fn push_lengths_allocations<N: Names>(
    alloc: Global,
    names: &N,
    lengths: &[Expr],
    out: &mut List<Spot>,
) -> Result<(), AllocError>
    ensures { OnOk result (shown_spots out.new ≡ shown_spots out.old ++ spec.lengths_allocations (N.known names.now) (map exp_of lengths.now)) }
{
    for length in lengths {
        push_allocations(alloc, names, Target::No, length, out)?;
    }
    Ok(())
}

/// Where `target` is what a `malloc` as the whole initial value makes an object of.
#[cycle(initial_allocations)]
pub fn push_initial_allocations<N: Names>(
    alloc: Global,
    names: &N,
    target: Target,
    initial: &Initial,
    out: &mut List<Spot>,
) -> Result<(), AllocError>
    ensures { OnOk result (shown_spots out.new ≡ shown_spots out.old ++ spec.initial_allocations (N.known names.now) (shown_target target.entry) (init_of initial.now)) }
{
    match initial {
        Initial::Value(e) => push_allocations(alloc, names, target, e, out),
        Initial::Braces { parts, .. } => {
            push_initials_allocations(alloc, names, parts.as_slice(), out)
        }
        Initial::Mutex { .. } => Ok(()),
        Initial::Cond { .. } => Ok(()),
        Initial::RwLock { .. } => Ok(()),
    }
}

#[cycle(initial_allocations)]
fn push_initials_allocations<N: Names>(
    alloc: Global,
    names: &N,
    initials: &[Initial],
    out: &mut List<Spot>,
) -> Result<(), AllocError>
    ensures { OnOk result (shown_spots out.new ≡ shown_spots out.old ++ spec.initials_allocations (N.known names.now) (listed_inits (map init_of initials.now))) }
{
    for initial in initials {
        push_initial_allocations(alloc, names, Target::No, initial, out)?;
    }
    Ok(())
}

/// The lengths of the arrays that are declared.
pub fn declared_lengths(declarator: &Declarator) -> &[Expr]
    ensures { map exp_of result.now ≡ spec.declared_lengths (declared_of declarator.now) }
{
    match declarator {
        Declarator::Object { lengths, .. } => lengths.as_slice(),
        Declarator::Pointer { .. } => &[],
    }
}

fn push_members_allocations<N: Names>(
    alloc: Global,
    names: &N,
    declarators: &[Declarator],
    out: &mut List<Spot>,
) -> Result<(), AllocError>
    ensures { OnOk result (shown_spots out.new ≡ shown_spots out.old ++ spec.members_allocations (N.known names.now) (map declared_of declarators.now)) }
{
    for declarator in declarators {
        push_lengths_allocations(alloc, names, declared_lengths(declarator), out)?;
    }
    Ok(())
}

/// Those in the members of a struct.
pub fn push_fields_allocations<N: Names>(
    alloc: Global,
    names: &N,
    members: &[Member],
    out: &mut List<Spot>,
) -> Result<(), AllocError>
    ensures { OnOk result (shown_spots out.new ≡ shown_spots out.old ++ spec.fields_allocations (N.known names.now) (map fields_of members.now)) }
{
    for member in members {
        push_members_allocations(alloc, names, member.declarators.as_slice(), out)?;
    }
    Ok(())
}
