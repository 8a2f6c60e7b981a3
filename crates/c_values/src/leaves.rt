//! What stands for an expression without operands that are made, with what it is (C99 6.5.1, 6.5.3.4).
ghost use Rattle.std.specs.Prelude.{◌≡◌, pos, if◌then◌else◌, IfOk};
ghost use Rattle.c_tree.specs.View as tree;
ghost use Rattle.c_types.specs.Numbers.{is_zero};
ghost use Rattle.c_types.specs.Shown.{shown_standing};
ghost use Rattle.c_types.specs.Scopes as scopes;
ghost use Rattle.c_types.specs.Standing.{no_target, standing};
ghost use Rattle.core_tree.specs.Core as core;
ghost use Rattle.c_operators.specs.Denoted.{denoted_null, denoted_value, denoted_zero, part_by};
ghost use Rattle.c_operators.specs.Constants as spec_constants;
ghost use Rattle.c_operators.specs.Context.{home_of};
ghost use Rattle.c_operators.specs.Views.{denoted_of, context_of, part_of};
ghost use Rattle.c_values.specs.Expressions as spec;

use crate::parts::computed;
use c_constants::is_constant;
use c_operators::{Constant, Context, Denoted, Home, Part, function_word, make};
use c_rules::{judge, value_of};
use c_tree::Expr;
use c_types::{Meaning, Names, Standing, Target};
use rr_base::Position;
use std::alloc::{AllocError, Global};

/// What an expression is.
fn standing_of<'h>(context: Context<'h, '_>, e: &Expr) -> Standing<'h>
    ensures { shown_standing result ≡ standing (context_of context.entry).known no_target (tree.exp_of e.now) }
{
    let mut unnoted = None;
    judge(context.table, Target::No, e, &mut unnoted)
}

/// Whether it has the form of a constant one, and the value that counts where it has.
fn constant_of(context: Context, e: &Expr) -> Constant
    ensures { result ≡ spec_constants.constant_of (context_of context.entry).known (tree.exp_of e.now) }
{
    Constant {
        is_formed: is_constant(e),
        value: value_of(context.table, e),
    }
}

/// An expression none of whose operands is made, with what it is.
fn leaf<'h>(context: Context<'h, '_>, e: &Expr, denoted: Denoted) -> Part<'h>
    ensures part { part_of result ≡ part_by (standing (context_of context.entry).known no_target (tree.exp_of e.now)) (denoted_of denoted) }
    ensures constant { result.constant ≡ spec_constants.constant_of (context_of context.entry).known (tree.exp_of e.now) }
{
    Part {
        standing: standing_of(context, e),
        denoted,
        constant: constant_of(context, e),
    }
}

/// The same as a `leaf`, of one that is its value where it is constant.
fn folded_leaf<'h>(
    alloc: Global,
    context: Context<'h, '_>,
    e: &Expr,
    at: Position,
    denoted: Denoted,
) -> Result<Part<'h>, AllocError>
    ensures part { IfOk result (λ p. part_of p ≡ part_by (standing (context_of context.entry).known no_target (tree.exp_of e.now)) (spec.folded (context_of context.entry).known (tree.exp_of e.now) at (denoted_of denoted))) }
    ensures constant { IfOk result (λ p. p.constant ≡ spec_constants.constant_of (context_of context.entry).known (tree.exp_of e.now)) }
{
    let constant = constant_of(context, e);
    computed(alloc, standing_of(context, e), constant, at, denoted)
}

/// What is kept there.
fn denoted_in(alloc: Global, home: Home, at: Position) -> Result<Denoted, AllocError>
    ensures { IfOk result (λ h. denoted_of h ≡ spec.denoted_in home at) }
{
    match home {
        Home::Register(number) => Ok(Denoted::Register { number, at }),
        Home::Object(number) => {
            let through = make::object(alloc, number, at)?;
            Ok(Denoted::Cells { through, at })
        }
    }
}

/// A variable: a formal or local, or a global.
pub fn variable(
    alloc: Global,
    context: Context,
    name: &[u8],
    at: Position,
) -> Result<Denoted, AllocError>
    ensures { IfOk result (λ h. denoted_of h ≡ spec.variable_denoted (context_of context.entry) name.now (home_of (context_of context.entry) name.now) at) }
{
    match context.home_of(name) {
        Some(home) => denoted_in(alloc, home, at),
        None => {
            let through = make::global(alloc, context.source.global_named(name), at)?;
            Ok(Denoted::Cells { through, at })
        }
    }
}

/// What stands for a name.
fn named(alloc: Global, context: Context, name: &[u8], at: Position) -> Result<Denoted, AllocError>
    ensures { IfOk result (λ h. denoted_of h ≡ spec.named_denoted (context_of context.entry) name.now (scopes.seen (context_of context.entry).known name.now) at) }
{
    match context.table.seen(name) {
        Some(Meaning::Variable(_)) => variable(alloc, context, name, at),
        Some(Meaning::Function(_)) => {
            let word = function_word(context.table.function_numbered(name))?;
            let value = make::number(alloc, i64::from(word), at)?;
            Ok(Denoted::Value(value))
        }
        None => Ok(Denoted::Zero { at }),
    }
}

/// A literal. That of 0 is a null pointer where a pointer is wanted.
fn literal(alloc: Global, value: i64, at: Position) -> Result<Denoted, AllocError>
    ensures { IfOk result (λ h. denoted_of h ≡ (if is_zero value then denoted_zero at else denoted_value (core.number value at))) }
{
    if value == 0 {
        Ok(Denoted::Zero { at })
    } else {
        let value = make::number(alloc, value, at)?;
        Ok(Denoted::Value(value))
    }
}

/// A name.
pub fn name_part<'h>(
    alloc: Global,
    context: Context<'h, '_>,
    e: &Expr,
    name: &[u8],
    at: Position,
) -> Result<Part<'h>, AllocError>
    ensures part { let e = tree.exp_of e.now in let h = context_of context.entry in IfOk result (λ p. part_of p ≡ part_by (standing h.known no_target e) (spec.folded h.known e at (spec.named_denoted h name.now (scopes.seen h.known name.now) at))) }
    ensures constant { IfOk result (λ p. p.constant ≡ spec_constants.constant_of (context_of context.entry).known (tree.exp_of e.now)) }
{
    let denoted = named(alloc, context, name, at)?;
    folded_leaf(alloc, context, e, at, denoted)
}

/// A `sizeof`.
pub fn size_part<'h>(
    alloc: Global,
    context: Context<'h, '_>,
    e: &Expr,
    at: Position,
) -> Result<Part<'h>, AllocError>
    ensures part { let e = tree.exp_of e.now in let h = context_of context.entry in IfOk result (λ p. part_of p ≡ part_by (standing h.known no_target e) (spec.folded h.known e at (denoted_zero at))) }
    ensures constant { IfOk result (λ p. p.constant ≡ spec_constants.constant_of (context_of context.entry).known (tree.exp_of e.now)) }
{
    folded_leaf(alloc, context, e, at, Denoted::Zero { at })
}

/// A literal that is a number.
pub fn number_part<'h>(
    alloc: Global,
    context: Context<'h, '_>,
    e: &Expr,
    value: i64,
    at: Position,
) -> Result<Part<'h>, AllocError>
    ensures part { let e = tree.exp_of e.now in let h = context_of context.entry in IfOk result (λ p. part_of p ≡ part_by (standing h.known no_target e) (if is_zero value then denoted_zero at else denoted_value (core.number value at))) }
    ensures constant { IfOk result (λ p. p.constant ≡ spec_constants.constant_of (context_of context.entry).known (tree.exp_of e.now)) }
{
    let denoted = literal(alloc, value, at)?;
    Ok(leaf(context, e, denoted))
}

/// A literal that is a letter.
pub fn letter_part<'h>(
    alloc: Global,
    context: Context<'h, '_>,
    e: &Expr,
    value: u8,
    at: Position,
) -> Result<Part<'h>, AllocError>
    ensures part { let e = tree.exp_of e.now in let h = context_of context.entry in IfOk result (λ p. part_of p ≡ part_by (standing h.known no_target e) (denoted_value (core.number (pos value) at))) }
    ensures constant { IfOk result (λ p. p.constant ≡ spec_constants.constant_of (context_of context.entry).known (tree.exp_of e.now)) }
{
    let value = make::number(alloc, i64::from(value), at)?;
    Ok(leaf(context, e, Denoted::Value(value)))
}

/// A text, which stands only where its bytes are read.
pub fn text_part<'h>(context: Context<'h, '_>, e: &Expr, at: Position) -> Part<'h>
    ensures part { part_of result ≡ part_by (standing (context_of context.entry).known no_target (tree.exp_of e.now)) (denoted_zero at) }
    ensures constant { result.constant ≡ spec_constants.constant_of (context_of context.entry).known (tree.exp_of e.now) }
{
    leaf(context, e, Denoted::Zero { at })
}

/// `NULL`.
pub fn null_part<'h>(context: Context<'h, '_>, e: &Expr, at: Position) -> Part<'h>
    ensures part { part_of result ≡ part_by (standing (context_of context.entry).known no_target (tree.exp_of e.now)) (denoted_null at) }
    ensures constant { result.constant ≡ spec_constants.constant_of (context_of context.entry).known (tree.exp_of e.now) }
{
    leaf(context, e, Denoted::Null { at })
}
