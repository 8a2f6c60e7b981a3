//! What an expression is, and the first rule that it breaks (C99 6.5).
#![tactic(auto, using(c_types::proofs::First::first_of_both))]

ghost use Rattle.std.specs.Prelude.{◌≡◌, ◌++◌, [], ◌∷◌, not, map};
ghost use Rattle.c_tree.specs.Tree as trees;
ghost use Rattle.c_tree.specs.Tree.{listed};
ghost use Rattle.c_tree.specs.View.{exp_of};
ghost use Rattle.c_types.specs.Found.{first_among, found_at};
ghost use Rattle.c_types.specs.declared.fault.FaultKind.TheVariants as fault;
ghost use Rattle.c_types.specs.Constants as constants;
ghost use Rattle.c_types.specs.Operands.{no_type, operand_of, takes, binary_standing};
ghost use Rattle.c_types.specs.Scopes.{seen, type_named};
ghost use Rattle.c_types.specs.Standing as standings;
ghost use Rattle.c_rules.specs.Faults as spec;
ghost use Rattle.c_types.specs.Shown.{shown_operand, shown_standing, shown_target, shown_wants};

use crate::blame::{
    note_assign, note_cast, note_member, note_mismatch, note_prefix, note_sizeof_type, note_step,
    own_place,
};
use crate::blame_call::{is_judged, note_argument, note_call, note_named, wants_of};
use crate::calls::{
    call_standing, can_go, fits_wanted, following, format_of, given_by_call, let_go,
    number_standing,
};
use c_constants::constant_named;
use c_tree::{AssignOp, BinaryOp, CType, Expr, Name, PrefixOp};
use c_types::{
    FaultKind, Found, Names, Operand, Standing, Target, Wanted, Wants, assign_standing,
    assigned_target, binary_standing, can_choose, can_index, cast_standing, cast_target,
    conditional_standing, index_standing, is_sized, member_standing, named_standing, note,
    pointed_struct, prefix_standing, sizeof_standing, sizeof_type_standing, stepped, struct_of,
    takes, type_named,
};
use rr_base::{Bytes, Position};

/// Notes that the expression's value is let go though it can't be.
pub fn note_going(e: &Expr, of: Standing, first: &mut Option<Found>)
    ensures { first.new ≡ first_among first.old (spec.go_faults (shown_standing of.entry) (exp_of e.now)) }
{
    let at = own_place(e);
    note_mismatch(first, !can_go(of), at);
}

// A name as an expression (C99 6.5.1).
fn judge_name<'a, N: Names>(
    names: &'a N,
    name: &[u8],
    at: Position,
    first: &mut Option<Found>,
) -> Standing<'a>
    ensures standing { shown_standing result ≡ standings.named_standing (N.known names.now) name.now (seen (N.known names.now) name.now) (constants.constant_named name.now) }
    ensures first { first.new ≡ first_among first.old (spec.named_faults (N.known names.now) (seen (N.known names.now) name.now) name.now at) }
{
    note_named(names, name, at, first);
    named_standing(names, name, constant_named(name))
}

// `sizeof(of)` (C99 6.5.3.4).
fn judge_sizeof_type<'a, N: Names>(
    names: &'a N,
    of: &CType,
    at: Position,
    first: &mut Option<Found>,
) -> Standing<'a>
    ensures standing { shown_standing result ≡ standings.sizeof_type_standing (N.known names.now) (type_named (N.known names.now) of.now) }
    ensures first { first.new ≡ first_among first.old (spec.sizeof_type_faults (N.known names.now) of.now at) }
{
    note_sizeof_type(names, of, at, first);
    sizeof_type_standing(names, type_named(names, of))
}

// A text that isn't the format of a `printf`.
fn judge_text<'a>(at: Position, first: &mut Option<Found>) -> Standing<'a>
    ensures standing { shown_standing result ≡ no_type }
    ensures first { first.new ≡ first_among first.old (found_at fault.BadCall at ∷ []) }
{
    note(first, true, FaultKind::BadCall, at);
    Standing::NoType
}

/// What the expression is, where `target` is what a `malloc` in its place makes an object of. Its faults are noted.
#[cycle(judge)]
pub fn judge<'a, N: Names>(
    names: &'a N,
    target: Target<'a>,
    e: &Expr,
    first: &mut Option<Found>,
) -> Standing<'a>
    ensures standing { shown_standing result ≡ standings.standing (N.known names.now) (shown_target target.entry) (exp_of e.now) }
    ensures first { first.new ≡ first_among first.old (spec.faults (N.known names.now) (shown_target target.entry) (exp_of e.now)) }
{
    match e {
        Expr::Comma { first: a, rest, .. } => {
            let of = judge_going(names, a, first);
            judge_rest(names, of, rest.as_slice(), first)
        }
        Expr::Assign {
            left,
            op,
            right,
            at,
        } => {
            let to = judge(names, Target::No, left, first);
            judge_assigned(names, right, *op, left, to, *at, first)
        }
        Expr::Conditional { test, yes, no, at } => {
            let test = judged(names, test, first);
            let yes = judged(names, yes, first);
            judge_choice(names, no, test, yes, *at, first)
        }
        Expr::Binary {
            left,
            op,
            right,
            at,
        } => judge_binary(names, right, *op, judged(names, left, first), *at, first),
        Expr::Prefix { op, operand, at } => judge_prefix(names, *op, operand, *at, first),
        Expr::SizeofExpr { operand, at } => judge_sizeof(names, operand, *at, first),
        Expr::SizeofType { of, at } => judge_sizeof_type(names, of, *at, first),
        Expr::Cast { to, operand, at } => judge_cast(names, operand, to, *at, first),
        Expr::Index { base, index, at } => {
            judge_index(names, index, judged(names, base, first), *at, first)
        }
        Expr::Member { base, name, at } => judge_member(names, base, name, *at, first),
        Expr::Arrow { base, name, at } => judge_arrow(names, base, name, *at, first),
        Expr::PostIncrement { operand, at } => judge_step(names, operand, *at, first),
        Expr::PostDecrement { operand, at } => judge_step(names, operand, *at, first),
        Expr::Name { name, at } => judge_name(names, name.as_slice(), *at, first),
        Expr::Call {
            name,
            arguments,
            at,
        } => judge_call(names, target, arguments.as_slice(), name, *at, first),
        Expr::Number { value, .. } => number_standing(*value),
        Expr::Letter { .. } => Standing::Whole,
        Expr::Text { at, .. } => judge_text(*at, first),
        Expr::Null { .. } => Standing::Null,
        Expr::Paren { inner, .. } => judge(names, target, inner, first),
    }
}

// A part of an expression, as an operand.
#[cycle(judge)]
fn judged<'a, N: Names>(names: &'a N, e: &Expr, first: &mut Option<Found>) -> Operand<'a>
    ensures operand { shown_operand result ≡ operand_of (standings.standing (N.known names.now) standings.no_target (exp_of e.now)) }
    ensures first { first.new ≡ first_among first.old (spec.faults (N.known names.now) standings.no_target (exp_of e.now)) }
{
    Operand::of(judge(names, Target::No, e, first))
}

// The right side of an assignment to what the left side is (C99 6.5.16).
#[cycle(judge)]
fn judge_assigned<'a, N: Names>(
    names: &'a N,
    right: &Expr,
    op: AssignOp,
    left: &Expr,
    to: Standing<'a>,
    at: Position,
    first: &mut Option<Found>,
) -> Standing<'a>
    ensures standing { let k = N.known names.now in let s = shown_standing to.entry in shown_standing result ≡ standings.assign_standing op s (operand_of (standings.standing k (standings.assigned_target op s) (exp_of right.now))) }
    ensures first { let k = N.known names.now in let s = shown_standing to.entry in let w = standings.assigned_target op s in first.new ≡ first_among first.old (spec.faults k w (exp_of right.now) ++ spec.assign_faults k op (exp_of left.now) s (operand_of (standings.standing k w (exp_of right.now))) at) }
{
    let from = Operand::of(judge(names, assigned_target(op, to), right, first));
    note_assign(names, op, left, to, from, at, first);
    assign_standing(op, to, from)
}

// What a `?` chooses where its test fails, after the test and the other choice (C99 6.5.15).
#[cycle(judge)]
fn judge_choice<'a, N: Names>(
    names: &'a N,
    otherwise: &Expr,
    test: Operand<'a>,
    chosen: Operand<'a>,
    at: Position,
    first: &mut Option<Found>,
) -> Standing<'a>
    ensures standing { let c = operand_of (standings.standing (N.known names.now) standings.no_target (exp_of otherwise.now)) in shown_standing result ≡ standings.conditional_standing (shown_operand test.entry) (shown_operand chosen.entry) c }
    ensures first { let k = N.known names.now in let c = operand_of (standings.standing k standings.no_target (exp_of otherwise.now)) in first.new ≡ first_among first.old (spec.faults k standings.no_target (exp_of otherwise.now) ++ spec.mismatch (not (spec.condition_takes (shown_operand test.entry) (shown_operand chosen.entry) c)) at) }
{
    let other = judged(names, otherwise, first);
    let allowed = test.is_scalar() && can_choose(chosen, other);
    note_mismatch(first, !allowed, at);
    conditional_standing(test, chosen, other)
}

// The right operand of an operator between two (C99 6.5.5 to 6.5.14).
#[cycle(judge)]
fn judge_binary<'a, N: Names>(
    names: &'a N,
    right: &Expr,
    op: BinaryOp,
    left: Operand<'a>,
    at: Position,
    first: &mut Option<Found>,
) -> Standing<'a>
    ensures standing { shown_standing result ≡ binary_standing op (shown_operand left.entry) (operand_of (standings.standing (N.known names.now) standings.no_target (exp_of right.now))) }
    ensures first { let k = N.known names.now in first.new ≡ first_among first.old (spec.faults k standings.no_target (exp_of right.now) ++ spec.mismatch (not (takes op (shown_operand left.entry) (operand_of (standings.standing k standings.no_target (exp_of right.now))))) at) }
{
    let right = judged(names, right, first);
    note_mismatch(first, !takes(op, left, right), at);
    binary_standing(op, left, right)
}

// `base[index]`, after its base (C99 6.5.2.1).
#[cycle(judge)]
fn judge_index<'a, N: Names>(
    names: &'a N,
    index: &Expr,
    base: Operand<'a>,
    at: Position,
    first: &mut Option<Found>,
) -> Standing<'a>
    ensures standing { shown_standing result ≡ standings.index_standing (shown_operand base.entry) (operand_of (standings.standing (N.known names.now) standings.no_target (exp_of index.now))) }
    ensures first { let k = N.known names.now in first.new ≡ first_among first.old (spec.faults k standings.no_target (exp_of index.now) ++ spec.mismatch (not (standings.can_index (shown_operand base.entry) (operand_of (standings.standing k standings.no_target (exp_of index.now))))) at) }
{
    let index = judged(names, index, first);
    note_mismatch(first, !can_index(base, index), at);
    index_standing(base, index)
}

// `name(arguments)` (C99 6.5.2.2).
#[cycle(judge)]
fn judge_call<'a, N: Names>(
    names: &'a N,
    target: Target<'a>,
    arguments: &[Expr],
    name: &Bytes,
    at: Position,
    first: &mut Option<Found>,
) -> Standing<'a>
    ensures standing { shown_standing result ≡ standings.standing (N.known names.now) (shown_target target.entry) (trees.call name.now (listed (map exp_of arguments.now)) at) }
    ensures first { first.new ≡ first_among first.old (spec.faults (N.known names.now) (shown_target target.entry) (trees.call name.now (listed (map exp_of arguments.now)) at)) }
{
    let name = name.as_slice();
    let format = format_of(arguments);
    let gives = given_by_call(names, target, name, format);
    let wants = wants_of(names, name, format);
    note_call(names, name, target, arguments, at, first);
    let fit = judge_arguments(names, wants, at, arguments, first);
    call_standing(gives, fit)
}

// `op operand`, an operator before its operand (C99 6.5.3).
#[cycle(judge)]
fn judge_prefix<'a, N: Names>(
    names: &'a N,
    op: PrefixOp,
    operand: &Expr,
    at: Position,
    first: &mut Option<Found>,
) -> Standing<'a>
    ensures standing { shown_standing result ≡ standings.prefix_standing op (standings.standing (N.known names.now) standings.no_target (exp_of operand.now)) }
    ensures first { first.new ≡ first_among first.old (spec.faults (N.known names.now) standings.no_target (exp_of operand.now) ++ spec.prefix_faults (N.known names.now) op (exp_of operand.now) (standings.standing (N.known names.now) standings.no_target (exp_of operand.now)) at) }
{
    let of = judge(names, Target::No, operand, first);
    note_prefix(names, op, operand, of, at, first);
    prefix_standing(op, of)
}

// `sizeof operand` (C99 6.5.3.4).
#[cycle(judge)]
fn judge_sizeof<'a, N: Names>(
    names: &'a N,
    operand: &Expr,
    at: Position,
    first: &mut Option<Found>,
) -> Standing<'a>
    ensures standing { shown_standing result ≡ standings.sizeof_standing (N.known names.now) (standings.standing (N.known names.now) standings.no_target (exp_of operand.now)) }
    ensures first { first.new ≡ first_among first.old (spec.faults (N.known names.now) standings.no_target (exp_of operand.now) ++ spec.mismatch (not (standings.is_sized (N.known names.now) (standings.standing (N.known names.now) standings.no_target (exp_of operand.now)))) at) }
{
    let of = judge(names, Target::No, operand, first);
    note_mismatch(first, !is_sized(names, of), at);
    sizeof_standing(names, of)
}

// `(to)operand` (C99 6.5.4).
#[cycle(judge)]
fn judge_cast<'a, N: Names>(
    names: &'a N,
    operand: &Expr,
    to: &CType,
    at: Position,
    first: &mut Option<Found>,
) -> Standing<'a>
    ensures standing { shown_standing result ≡ standings.standing (N.known names.now) standings.no_target (trees.cast to.now (exp_of operand.now) at) }
    ensures first { first.new ≡ first_among first.old (spec.faults (N.known names.now) standings.no_target (trees.cast to.now (exp_of operand.now) at)) }
{
    let named = type_named(names, to);
    let from = Operand::of(judge(names, cast_target(named, to.stars), operand, first));
    note_cast(names, to, from, at, first);
    cast_standing(named, to.stars, from)
}

// `base.name` (C99 6.5.2.3).
#[cycle(judge)]
fn judge_member<'a, N: Names>(
    names: &'a N,
    base: &Expr,
    name: &Name,
    at: Position,
    first: &mut Option<Found>,
) -> Standing<'a>
    ensures standing { shown_standing result ≡ standings.standing (N.known names.now) standings.no_target (trees.member (exp_of base.now) name.now at) }
    ensures first { first.new ≡ first_among first.old (spec.faults (N.known names.now) standings.no_target (trees.member (exp_of base.now) name.now at)) }
{
    let of = judge(names, Target::No, base, first);
    let number = struct_of(of);
    note_member(names, Operand::of(of), number, name, at, first);
    member_standing(names, number, name.text.as_slice())
}

// `base->name` (C99 6.5.2.3).
#[cycle(judge)]
fn judge_arrow<'a, N: Names>(
    names: &'a N,
    base: &Expr,
    name: &Name,
    at: Position,
    first: &mut Option<Found>,
) -> Standing<'a>
    ensures standing { shown_standing result ≡ standings.standing (N.known names.now) standings.no_target (trees.arrow (exp_of base.now) name.now at) }
    ensures first { first.new ≡ first_among first.old (spec.faults (N.known names.now) standings.no_target (trees.arrow (exp_of base.now) name.now at)) }
{
    let of = Operand::of(judge(names, Target::No, base, first));
    let number = pointed_struct(of);
    note_member(names, of, number, name, at, first);
    member_standing(names, number, name.text.as_slice())
}

// `operand++` or `operand--` (C99 6.5.2.4).
#[cycle(judge)]
fn judge_step<'a, N: Names>(
    names: &'a N,
    operand: &Expr,
    at: Position,
    first: &mut Option<Found>,
) -> Standing<'a>
    ensures standing { shown_standing result ≡ standings.stepped (standings.standing (N.known names.now) standings.no_target (exp_of operand.now)) }
    ensures first { first.new ≡ first_among first.old (spec.faults (N.known names.now) standings.no_target (exp_of operand.now) ++ spec.step_faults (N.known names.now) (exp_of operand.now) (standings.standing (N.known names.now) standings.no_target (exp_of operand.now)) at) }
{
    let of = judge(names, Target::No, operand, first);
    note_step(names, operand, of, at, first);
    stepped(of)
}

// An expression before a comma, or after one.
#[cycle(judge)]
fn judge_going<'a, N: Names>(names: &'a N, e: &Expr, first: &mut Option<Found>) -> Standing<'a>
    ensures standing { shown_standing result ≡ standings.let_go (standings.standing (N.known names.now) standings.no_target (exp_of e.now)) }
    ensures first { first.new ≡ first_among first.old (spec.faults (N.known names.now) standings.no_target (exp_of e.now) ++ spec.go_faults (standings.standing (N.known names.now) standings.no_target (exp_of e.now)) (exp_of e.now)) }
{
    let of = judge(names, Target::No, e, first);
    note_going(e, of, first);
    let_go(of)
}

// The last of several expressions with commas between them, where the first one is `head`.
#[cycle(judge)]
fn judge_rest<'a, N: Names>(
    names: &'a N,
    head: Standing<'a>,
    rest: &[Expr],
    first: &mut Option<Found>,
) -> Standing<'a>
    ensures standing { shown_standing result ≡ standings.last_standing (N.known names.now) (shown_standing head.entry) (listed (map exp_of rest.now)) }
    ensures first { first.new ≡ first_among first.old (spec.rest_faults (N.known names.now) (listed (map exp_of rest.now))) }
{
    let mut last = head;
    for e in rest {
        last = following(last, judge_going(names, e, first));
    }
    last.as_value()
}

// Its faults are noted where it is to be judged as an expression.
#[cycle(judge)]
fn judge_where<'a, N: Names>(
    names: &'a N,
    is_judged: bool,
    e: &Expr,
    first: &mut Option<Found>,
) -> Standing<'a>
    ensures standing { shown_standing result ≡ standings.standing (N.known names.now) standings.no_target (exp_of e.now) }
    ensures first { first.new ≡ first_among first.old (spec.where_judged is_judged (spec.faults (N.known names.now) standings.no_target (exp_of e.now))) }
{
    if is_judged {
        return judge(names, Target::No, e, first);
    }
    let mut unnoted = None;
    judge(names, Target::No, e, &mut unnoted)
}

// Whether the argument has no fault and is what is wanted.
#[cycle(judge)]
fn judge_argument<N: Names>(
    names: &N,
    wanted: Wanted,
    at: Position,
    e: &Expr,
    first: &mut Option<Found>,
) -> bool
    ensures fits { result ≡ standings.fits_wanted (N.known names.now) wanted (exp_of e.now) (standings.standing (N.known names.now) standings.no_target (exp_of e.now)) }
    ensures first { first.new ≡ first_among first.old (spec.one_argument_faults (N.known names.now) wanted at (exp_of e.now) (spec.faults (N.known names.now) standings.no_target (exp_of e.now))) }
{
    let of = judge_where(names, is_judged(wanted, e), e, first);
    note_argument(names, wanted, e, of, at, first);
    fits_wanted(names, wanted, e, of)
}

// Whether there are as many arguments as are wanted, each of which fits.
#[cycle(judge)]
fn judge_arguments<N: Names>(
    names: &N,
    wanted: Wants,
    at: Position,
    arguments: &[Expr],
    first: &mut Option<Found>,
) -> bool
    ensures fit { result ≡ standings.fit_wanted (N.known names.now) (shown_wants wanted.entry) (listed (map exp_of arguments.now)) }
    ensures first { first.new ≡ first_among first.old (spec.arguments_faults (N.known names.now) (shown_wants wanted.entry) at (listed (map exp_of arguments.now))) }
{
    let mut wants = wanted;
    let mut fit = true;
    for e in arguments {
        match wants.next() {
            Some((next, others)) => {
                fit &= judge_argument(names, next, at, e, first);
                wants = others;
            }
            None => {
                judge(names, Target::No, e, first);
                fit = false;
            }
        }
    }
    fit && wants.next().is_none()
}
