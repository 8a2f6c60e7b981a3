//! Constants at their place: what `sizeof` gives, and which constants are refused (C99 6.5.3.4, 6.6, 6.7.5.2).
#![tactic(auto, using(c_types::proofs::First::first_of_both))]

ghost use Rattle.std.specs.Prelude.{◌≡◌};
ghost use Rattle.c_tree.specs.View.{exp_of};
ghost use Rattle.c_types.specs.Scopes.{cells_of_some};
ghost use Rattle.c_types.specs.Found.{first_among};
ghost use Rattle.c_types.specs.Shown.{shown_maybe, shown_standing};
ghost use Rattle.c_constants.specs.Values as values;
ghost use Rattle.c_rules.specs.Sizes as spec;

use crate::blame::{first_place, note_mismatch};
use crate::constants::value_of;
use crate::judging::judge;
use c_constants::is_constant;
use c_tree::Expr;
use c_types::{FaultKind, Found, Names, Standing, Target, TypeRef, note, type_named};
use rr_base::{Position, Trap};

fn cells_of_standing<N: Names>(names: &N, of: Standing) -> u32
    ensures { result ≡ values.cells_of_standing (N.known names.now) (shown_standing of.entry) }
{
    match of {
        Standing::NoType => 0,
        Standing::Zero => 1,
        Standing::Null => 1,
        Standing::Whole => 1,
        Standing::Pointer(_) => 1,
        Standing::Bare(base) => names.cells_of(TypeRef::starred(0, base)),
        Standing::Place(of) => names.cells_of(of),
    }
}

fn cells_of_named<N: Names>(names: &N, of: Option<TypeRef>) -> u32
    ensures { result ≡ cells_of_some (N.known names.now) (shown_maybe of.entry) }
{
    match of {
        Some(of) => names.cells_of(of),
        None => 0,
    }
}

/// What a `sizeof` gives at its place, in cells. It is 0 for what is none.
pub fn size_here<N: Names>(names: &N, e: &Expr) -> u32
    ensures { result ≡ values.size_here (N.known names.now) (exp_of e.now) }
{
    match e {
        Expr::SizeofExpr { operand, .. } => {
            let mut unnoted = None;
            cells_of_standing(names, judge(names, Target::No, operand, &mut unnoted))
        }
        Expr::SizeofType { of, .. } => cells_of_named(names, type_named(names, of)),
        _ => 0,
    }
}

/// Whether the expression breaks no rule.
pub fn is_sound<N: Names>(names: &N, e: &Expr) -> bool
    ensures { result ≡ spec.is_sound (N.known names.now) (exp_of e.now) }
{
    let mut first = None;
    judge(names, Target::No, e, &mut first);
    first.is_none()
}

fn is_trap(value: Result<i64, Trap>) -> bool
    ensures { result ≡ spec.is_trap value }
{
    match value {
        Ok(_) => false,
        Err(_) => true,
    }
}

/// Notes what is wrong with the form and the value of a constant, but for the faults that it has as an expression.
pub fn note_constant<N: Names>(names: &N, e: &Expr, first: &mut Option<Found>)
    ensures { first.new ≡ first_among first.old (spec.constant_faults (N.known names.now) (exp_of e.now)) }
{
    let comes = !is_constant(e) || is_sound(names, e) && is_trap(value_of(names, e));
    let at = first_place(e);
    note(first, comes, FaultKind::NotConstant, at);
}

fn is_positive(number: i64) -> bool
    ensures { result ≡ spec.is_positive number }
{
    number > 0
}

fn is_short(value: Result<i64, Trap>) -> bool
    ensures { result ≡ spec.is_short value }
{
    match value {
        Ok(number) => !is_positive(number),
        Err(_) => false,
    }
}

fn is_short_length<N: Names>(names: &N, e: &Expr) -> bool
    ensures { result ≡ spec.is_short_length (N.known names.now) (exp_of e.now) }
{
    is_constant(e) && is_sound(names, e) && is_short(value_of(names, e))
}

/// Notes what is wrong with the length of an array that is declared by the name at the place.
pub fn note_length<N: Names>(names: &N, at: Position, e: &Expr, first: &mut Option<Found>)
    ensures { first.new ≡ first_among first.old (spec.length_faults (N.known names.now) at (exp_of e.now)) }
{
    judge(names, Target::No, e, first);
    note_constant(names, e, first);
    note_mismatch(first, is_short_length(names, e), at);
}

fn positive(number: i64) -> Option<u64>
    ensures { result ≡ spec.positive number }
{
    if number > 0 {
        Some(number as u64)
    } else {
        None
    }
}

fn positive_value(value: Result<i64, Trap>) -> Option<u64>
    ensures { result ≡ spec.positive_value value }
{
    match value {
        Ok(number) => positive(number),
        Err(_) => None,
    }
}

/// The number of elements of an array of this length, if nothing is wrong with it.
pub fn length_of<N: Names>(names: &N, e: &Expr) -> Option<u64>
    ensures { result ≡ spec.length_of (N.known names.now) (exp_of e.now) }
{
    if is_constant(e) && is_sound(names, e) {
        positive_value(value_of(names, e))
    } else {
        None
    }
}
