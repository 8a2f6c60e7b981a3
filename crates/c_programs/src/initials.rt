//! What objects start as (C99 6.7.8), and which rules that breaks.
#![tactic(auto, using(c_types::proofs::First::first_of_both))]

ghost use Rattle.std.specs.Prelude.{◌≡◌, map};
ghost use Rattle.c_tree.specs.Tree.{listed_inits};
ghost use Rattle.c_tree.specs.View.{exp_of, init_of};
ghost use Rattle.c_types.specs.Found.{first_among};
ghost use Rattle.c_programs.specs.Initials as spec;
ghost use Rattle.c_types.specs.Shown.{shown_type, shown_maybe, shown_member, shown_meaning, shown_operand, shown_target};
ghost use Rattle.c_types.specs.Constants.{is_address};

use c_constants::is_constant;
use c_rules::{first_place, judge, note_constant, note_mismatch};
use c_tree::{Expr, Initial, PrefixOp};
use c_types::{
    BaseType, FaultKind, Found, Layer, Meaning, Names, Operand, Target, TypeRef, accepts,
    have_same_base, is_array, note, points_to_functions, type_target,
};
use rr_base::Position;

/// A part of which there are so many, all of one type.
fn alike_part<'a>(many: u64, of: TypeRef<'a>, index: usize) -> Option<Option<TypeRef<'a>>>
    ensures { shown_member result ≡ spec.alike_part many (shown_type of.entry) index }
{
    if (index as u64) < many {
        Some(Some(of))
    } else {
        None
    }
}

fn base_part<'a, N: Names>(
    names: &'a N,
    base: BaseType,
    index: usize,
) -> Option<Option<TypeRef<'a>>>
    ensures { shown_member result ≡ spec.base_part (N.known names.now) base index }
{
    match base {
        BaseType::Int | BaseType::Function(_) => alike_part(1, TypeRef::starred(0, base), index),
        BaseType::Struct(number) => names.member_at(number, index),
        BaseType::Void => None,
        BaseType::Mutex => None,
        BaseType::Cond => None,
        BaseType::Barrier => None,
        BaseType::RwLock => None,
    }
}

/// The type of the part with this number, if braces start such a part. It isn't known where that of the whole isn't.
pub fn part_at<'a, N: Names>(
    names: &'a N,
    of: Option<TypeRef<'a>>,
    index: usize,
) -> Option<Option<TypeRef<'a>>>
    ensures { shown_member result ≡ spec.part_at (N.known names.now) (shown_maybe of.entry) index }
{
    let Some(of) = of else {
        return Some(None);
    };
    match of.peeled() {
        None => base_part(names, of.base, index),
        Some((Layer::Pointer, _)) => alike_part(1, of, index),
        Some((Layer::Array(many), element)) => alike_part(many, element, index),
    }
}

fn is_pointer(of: TypeRef) -> bool
    ensures { result ≡ spec.layered_is_pointer (shown_type of.entry).layers }
{
    match of.peeled() {
        Some((Layer::Pointer, _)) => true,
        Some((Layer::Array(_), _)) => false,
        None => false,
    }
}

fn is_array_meaning(seen: Option<Meaning>) -> bool
    ensures { result ≡ spec.is_array_meaning (shown_meaning seen.entry) }
{
    match seen {
        Some(Meaning::Variable(None)) => true,
        Some(Meaning::Variable(Some(of))) => is_array(of),
        Some(Meaning::Function(_)) => false,
        None => false,
    }
}

fn is_variable(seen: Option<Meaning>) -> bool
    ensures { result ≡ spec.is_variable (shown_meaning seen.entry) }
{
    match seen {
        Some(Meaning::Variable(_)) => true,
        Some(Meaning::Function(_)) => false,
        None => false,
    }
}

fn is_variable_name<N: Names>(names: &N, e: &Expr) -> bool
    ensures { result ≡ spec.is_variable_name (N.known names.now) (exp_of e.now) }
{
    match e {
        Expr::Name { name, .. } => is_variable(names.seen(name.as_slice())),
        Expr::Paren { inner, .. } => is_variable_name(names, inner),
        _ => false,
    }
}

fn is_address(op: PrefixOp) -> bool
    ensures { result ≡ is_address op }
{
    match op {
        PrefixOp::Address => true,
        _ => false,
    }
}

/// Whether a global pointer may start as the expression.
fn is_constant_address<N: Names>(names: &N, e: &Expr) -> bool
    ensures { result ≡ spec.is_constant_address (N.known names.now) (exp_of e.now) }
{
    match e {
        Expr::Null { .. } => true,
        Expr::Number { value, .. } => *value == 0,
        Expr::Name { name, .. } => is_array_meaning(names.seen(name.as_slice())),
        Expr::Prefix { op, operand, .. } => is_address(*op) && is_variable_name(names, operand),
        Expr::Paren { inner, .. } => is_constant_address(names, inner),
        _ => false,
    }
}

fn is_function_meaning(seen: Option<Meaning>) -> bool
    ensures { result ≡ spec.is_function_meaning (shown_meaning seen.entry) }
{
    match seen {
        Some(Meaning::Function(_)) => true,
        Some(Meaning::Variable(_)) => false,
        None => false,
    }
}

/// Whether a global pointer to functions may start as the expression.
fn is_constant_function<N: Names>(names: &N, e: &Expr) -> bool
    ensures { result ≡ spec.is_constant_function (N.known names.now) (exp_of e.now) }
{
    match e {
        Expr::Null { .. } => true,
        Expr::Number { value, .. } => *value == 0,
        Expr::Name { name, .. } => is_function_meaning(names.seen(name.as_slice())),
        Expr::Paren { inner, .. } => is_constant_function(names, inner),
        _ => false,
    }
}

/// Whether a global of some type may start as the expression.
fn is_some_constant<N: Names>(names: &N, e: &Expr) -> bool
    ensures { result ≡ spec.is_some_constant (N.known names.now) (exp_of e.now) }
{
    is_constant(e) || is_constant_address(names, e) || is_constant_function(names, e)
}

/// Notes that a global can't start as the expression: a pointer starts as an address or a function, and all else as a
/// constant.
fn note_global_value<N: Names>(names: &N, of: Option<TypeRef>, e: &Expr, first: &mut Option<Found>)
    ensures { first.new ≡ first_among first.old (spec.global_value_faults (N.known names.now) (shown_maybe of.entry) (exp_of e.now)) }
{
    let comes = match of {
        None => !is_some_constant(names, e),
        Some(of) if is_pointer(of) => !is_constant_address(names, e),
        Some(of) if points_to_functions(of) => !is_constant_function(names, e),
        Some(_) => {
            note_constant(names, e, first);
            return;
        }
    };
    let at = first_place(e);
    note(first, comes, FaultKind::NotConstant, at);
}

/// Whether an object may start as the operand; where its type isn't known some type would do.
fn starts_as(of: Option<TypeRef>, from: Operand) -> bool
    ensures { result ≡ spec.starts_as (shown_maybe of.entry) (shown_operand from.entry) }
{
    match of {
        None => from.is_scalar(),
        Some(of) => accepts(of, from),
    }
}

/// What a `malloc` makes objects of where it starts an object of the type.
pub fn value_target<'a>(of: Option<TypeRef<'a>>) -> Target<'a>
    ensures { shown_target result ≡ spec.value_target (shown_maybe of.entry) }
{
    match of {
        None => Target::Some,
        Some(of) => type_target(of),
    }
}

/// Whether the object is of the type, or may be.
fn may_be_base(base: BaseType, of: Option<TypeRef>) -> bool
    ensures { result ≡ spec.may_be_base base (shown_maybe of.entry) }
{
    let Some(of) = of else {
        return true;
    };
    match of.peeled() {
        None => have_same_base(base, of.base),
        Some(_) => false,
    }
}

fn note_value<'a, N: Names>(
    names: &'a N,
    is_global: bool,
    target: Target<'a>,
    of: Option<TypeRef<'a>>,
    at: Position,
    e: &Expr,
    first: &mut Option<Found>,
)
    ensures { first.new ≡ first_among first.old (spec.value_faults (N.known names.now) is_global (shown_target target.entry) (shown_maybe of.entry) at (exp_of e.now)) }
{
    let standing = judge(names, target, e, first);
    note_mismatch(first, !starts_as(of, Operand::of(standing)), at);
    if is_global {
        note_global_value(names, of, e, first);
    }
}

#[cycle(note_initial)]
fn note_initial<'a, N: Names>(
    names: &'a N,
    is_global: bool,
    target: Target<'a>,
    of: Option<TypeRef<'a>>,
    at: Position,
    initial: &Initial,
    first: &mut Option<Found>,
)
    ensures { first.new ≡ first_among first.old (spec.initial_faults (N.known names.now) is_global (shown_target target.entry) (shown_maybe of.entry) at (init_of initial.now)) }
{
    match initial {
        Initial::Value(e) => note_value(names, is_global, target, of, at, e, first),
        Initial::Braces { parts, .. } => {
            note_parts(names, is_global, of, at, parts.as_slice(), first);
        }
        Initial::Mutex { .. } => {
            note_mismatch(first, !may_be_base(BaseType::Mutex, of), at);
        }
        Initial::Cond { .. } => {
            note_mismatch(first, !may_be_base(BaseType::Cond, of), at);
        }
        Initial::RwLock { .. } => {
            note_mismatch(first, !may_be_base(BaseType::RwLock, of), at);
        }
    }
}

// What stands in braces.
#[cycle(note_initial)]
fn note_parts<'a, N: Names>(
    names: &'a N,
    is_global: bool,
    of: Option<TypeRef<'a>>,
    at: Position,
    parts: &[Initial],
    first: &mut Option<Found>,
)
    ensures { first.new ≡ first_among first.old (spec.inits_faults (N.known names.now) is_global (shown_maybe of.entry) 0 at (listed_inits (map init_of parts.now))) }
{
    for (index, initial) in parts.iter().enumerate() {
        let part = part_at(names, of, index);
        note_initial(
            names,
            is_global,
            Target::No,
            part.flatten(),
            at,
            initial,
            first,
        );
        note_mismatch(first, part.is_none(), at);
    }
}

/// Notes what is wrong with the initial of an object of the type, at the `=`. The object is known already.
pub fn note_start<'a, N: Names>(
    names: &'a N,
    is_global: bool,
    of: Option<TypeRef<'a>>,
    at: Position,
    initial: &Initial,
    first: &mut Option<Found>,
)
    ensures { first.new ≡ first_among first.old (spec.start_faults (N.known names.now) is_global (shown_maybe of.entry) at (init_of initial.now)) }
{
    note_initial(names, is_global, value_target(of), of, at, initial, first);
}
